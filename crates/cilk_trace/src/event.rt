// Events of the binary form, by their numbers.

ghost use Rattle.std.specs.Prelude.{◌≡◌, ◌+◌, IfSome, IsTrue};
ghost use Rattle.cilk_trace.specs.declared.event.Due.{Due};
ghost use Rattle.cilk_trace.specs.declared.event.Due.TheVariants.{Tag};
ghost use Rattle.cilk_trace.specs.Events.{access_line, deed_of, moved, reducer_line, small, step_of, tag_step, touch_of, uses, LeavesFewer};

use crate::line::{Cells, Line};
use crate::parse::are_cells;

/// What lines of a kind do with their cells.
#[derive(Clone, Copy)]
pub(crate) enum Touch {
    Read,
    Write,
    Clear,
}

/// What is done with a reducer.
#[derive(Clone, Copy)]
pub(crate) enum Deed {
    Create,
    Update,
    Value,
    Retire,
}

/// A kind of line with cells.
#[derive(Clone, Copy)]
pub(crate) struct Kind {
    pub(crate) touch: Touch,
    /// How many cells each has; 0 where each tells.
    pub(crate) count: u32,
    pub(crate) site: u32,
    /// The cells of the last one; the next one counts from their end.
    pub(crate) last: Cells,
}

/// The number of an event that is due next, with what the earlier ones said.
#[derive(Clone, Copy)]
pub(crate) enum Due {
    Tag,
    /// Of a kind that is declared.
    Kind,
    KindCount { touch: Touch },
    KindSite { touch: Touch, count: u32 },
    /// Of `enter`.
    Site,
    /// Of `unseen`.
    Unseen,
    /// Of a reducer's event.
    Deed,
    Reducer { deed: Deed },
    ReducerSite { deed: Deed, reducer: u32 },
    /// Of a line of a kind.
    Moved { kind: usize },
    UsedCount { kind: usize, first: u32 },
}

impl Due {
    /// Tells whether an event's first number is due.
    pub(crate) fn is_tag(self) -> bool
        ensures { IsTrue result → self ≡ Tag }
    {
        matches!(self, Due::Tag)
    }
}

/// What a number says.
#[derive(Clone, Copy)]
pub(crate) enum Step {
    /// Another number is due.
    More(Due),
    Declares(Kind),
    Says(Line),
    Uses { kind: usize, cells: Cells },
}

/// Returns a number of 32 bits.
fn small(number: u64) -> Option<u32>
    ensures { result ≡ small number }
{
    if number < 1 << 32 {
        Some(number as u32)
    } else {
        None
    }
}

fn touch_in(number: u64) -> Option<Touch>
    ensures { result ≡ touch_of number }
{
    match number {
        0 => Some(Touch::Read),
        1 => Some(Touch::Write),
        2 => Some(Touch::Clear),
        _ => None,
    }
}

fn deed_in(number: u64) -> Option<Deed>
    ensures { result ≡ deed_of number }
{
    match number {
        0 => Some(Deed::Create),
        1 => Some(Deed::Update),
        2 => Some(Deed::Value),
        3 => Some(Deed::Retire),
        _ => None,
    }
}

/// Returns what a tag says where this many kinds are declared.
fn tag(count: usize, number: u64) -> Option<Step>
    ensures step { result ≡ tag_step count number }
    ensures fewer { IfSome result (λ s. LeavesFewer Tag s) }
{
    match number {
        0 => Some(Step::More(Due::Kind)),
        1 => Some(Step::More(Due::Site)),
        2 => Some(Step::Says(Line::Spawned)),
        3 => Some(Step::Says(Line::Called)),
        4 => Some(Step::Says(Line::Sync)),
        5 => Some(Step::Says(Line::End)),
        6 => Some(Step::More(Due::Deed)),
        7 => Some(Step::More(Due::Unseen)),
        _ => {
            let kind = (number - 8) as usize;
            if kind < count {
                Some(Step::More(Due::Moved { kind }))
            } else {
                None
            }
        }
    }
}

/// Returns the first cell at a distance from where a kind's last use ended.
fn moved(last: Cells, number: u64) -> Option<u32>
    ensures { result ≡ moved (last.first + last.count) number }
{
    let end = u64::from(last.first) + u64::from(last.count);
    let half = number / 2;
    if number % 2 == 0 {
        small(end + half)
    } else if half < end {
        small(end - half - 1)
    } else {
        None
    }
}

fn uses(kind: usize, first: u32, count: u32) -> Option<Step>
    ensures step { result ≡ uses kind first count }
    ensures fewer { (due : Due) → IfSome result (λ s. LeavesFewer due s) }
{
    if are_cells(first, count) {
        let cells = Cells { first, count };
        Some(Step::Uses { kind, cells })
    } else {
        None
    }
}

fn reducer_line(deed: Deed, reducer: u32, site: u32) -> Line
    ensures { result ≡ reducer_line deed reducer site }
{
    match deed {
        Deed::Create => Line::Create { reducer, site },
        Deed::Update => Line::Update { reducer, site },
        Deed::Value => Line::Value { reducer, site },
        Deed::Retire => Line::Retire { reducer, site },
    }
}

/// Returns the line of a kind with these cells.
pub(crate) fn access_line(touch: Touch, cells: Cells, site: u32) -> Line
    ensures { result ≡ access_line touch cells site }
{
    match touch {
        Touch::Read => Line::Read { cells, site },
        Touch::Write => Line::Write { cells, site },
        Touch::Clear => Line::Clear { cells },
    }
}

/// Returns what the next number of an event says, if it may be there. `last` is the first cell of
/// the last line that has cells.
#[tactic(auto, unfolding(crate::specs::Events::step_of))]
#[inline(always)]
pub(crate) fn next_step(kinds: &[Kind], last: u32, due: Due, number: u64) -> Option<Step>
    ensures step { result ≡ step_of kinds.now last due number }
    ensures fewer { IfSome result (λ s. LeavesFewer due s) }
{
    match due {
        Due::Tag => tag(kinds.len(), number),
        Due::Kind => {
            let touch = touch_in(number)?;
            Some(Step::More(Due::KindCount { touch }))
        }
        Due::KindCount { touch } => {
            let count = small(number)?;
            Some(Step::More(Due::KindSite { touch, count }))
        }
        Due::KindSite { touch, count } => {
            let site = small(number)?;
            let last = Cells {
                first: last,
                count: 0,
            };
            Some(Step::Declares(Kind {
                touch,
                count,
                site,
                last,
            }))
        }
        Due::Site => {
            let site = small(number)?;
            Some(Step::Says(Line::Enter { site }))
        }
        Due::Unseen => {
            let site = small(number)?;
            Some(Step::Says(Line::Unseen { site }))
        }
        Due::Deed => {
            let deed = deed_in(number)?;
            Some(Step::More(Due::Reducer { deed }))
        }
        Due::Reducer { deed } => {
            let reducer = small(number)?;
            Some(Step::More(Due::ReducerSite { deed, reducer }))
        }
        Due::ReducerSite { deed, reducer } => {
            let site = small(number)?;
            Some(Step::Says(reducer_line(deed, reducer, site)))
        }
        Due::Moved { kind } => {
            let used = kinds.get(kind)?;
            let first = moved(used.last, number)?;
            if used.count == 0 {
                Some(Step::More(Due::UsedCount { kind, first }))
            } else {
                uses(kind, first, used.count)
            }
        }
        Due::UsedCount { kind, first } => {
            let count = small(number)?;
            uses(kind, first, count)
        }
    }
}
