//! The cells and reducers that a frame sees, by their numbers in a plan's run.

ghost use Rattle.std.specs.Prelude.{◌≡◌, ◌≢◌, ◌∷◌, [], IfOk, drop, slice_get};
ghost use Rattle.cilk_types.specs.declared.invocation.Invocation.{Invocation};
ghost use Rattle.cilk_program.specs.declared.ask.Ask.TheVariants.{Invoke};
ghost use Rattle.cilk_program.specs.declared.ask.Callee.{Callee};
ghost use Rattle.cilk_program.specs.declared.ask.Callee.TheVariants.{Root};
ghost use Rattle.cilk_replay.specs.Sights.{IsSightOf, MatchesCell, cell_asked, found_global, found_in, found_inside, layouts_of, number_taking};

use crate::frame_layout::{CellBlock, FrameLayout, ReducerNumber};
use crate::plan_match::PlanMatch;
use crate::reducer::{given_outer, given_to};
use cilk_frames::asked::AskSlot;
use cilk_frames::small_ask::SmallAsk;
use cilk_program::syntax::Place;
use cilk_types::event::Cell;
use std::alloc::{AllocError, Global};

/// The sight of a frame: its own layout; by its static links, the layouts of the frames around it; the
/// reducers that were passed to its function or to the function around it; and the number of the
/// cell that receives its result. A cell that the plan's run doesn't have has no number.
#[derive(Drop)]
pub struct Sight {
    pub own: FrameLayout,
    pub outer: Vec<FrameLayout>,
    pub given: Vec<ReducerNumber>,
    pub result: Option<u64>,
}

impl Sight {
    /// Returns the sight of the root's frame.
    pub fn root(alloc: Global, globals: usize, layout: FrameLayout) -> Sight
        ensures layouts { layouts_of result ≡ layout ∷ [] }
        ensures given { result.given.items ≡ [] }
        ensures result { result.result ≡ found_global globals 0 }
    {
        Sight {
            own: layout,
            outer: Vec::new(alloc),
            given: Vec::new(alloc),
            result: global(globals, 0),
        }
    }

    /// Returns the sight of the child that a frame requests. `layout` is the child's, and `caller` is
    /// the requesting frame's sight.
    pub fn begun(
        alloc: Global,
        globals: usize,
        layout: FrameLayout,
        caller: &Sight,
        asked: &AskSlot,
    ) -> Result<Sight, AllocError>
        requires { (how : Invocation) × (callee : Callee) × (callee ≢ Root) × (asked.now ≡ Invoke how callee) }
        ensures { IfOk result (λ s. (how : Invocation) (callee : Callee) → asked.now ≡ Invoke how callee
            → IsSightOf globals callee layout caller.now s) }
    {
        let (outer, given, result) = match asked.small_ask() {
            None => {
                let call = asked.invocation().1;
                let given = given_to(alloc, caller, call.reducers.as_slice())?;
                (Vec::new(alloc), given, caller.taking(globals, call.result))
            }
            Some(SmallAsk::Turns(_, part)) => {
                let outer = caller.outer(alloc, part.up)?;
                let given = given_outer(alloc, &outer, &caller.given)?;
                (outer, given, global(globals, 0))
            }
            Some(_) => unreachable!(),
        };
        Ok(Sight {
            own: layout,
            outer,
            given,
            result,
        })
    }

    // The layouts `up` static links out and further out.
    fn outer(&self, alloc: Global, up: u32) -> Result<Vec<FrameLayout>, AllocError>
        ensures { IfOk result (λ v. v.items ≡ drop up (layouts_of self.now)) }
    {
        let mut outer = Vec::new(alloc);
        if up == 0 {
            outer.push(self.own)?;
            outer.extend_from_slice(&self.outer)?;
        } else {
            outer.extend_from_slice(behind(&self.outer, up - 1))?;
        }
        Ok(outer)
    }

    /// Returns the layout `up` static links out.
    pub(crate) fn layout(&self, up: u32) -> Option<FrameLayout>
        ensures { result ≡ slice_get (layouts_of self.now) up }
    {
        if up == 0 {
            return Some(self.own);
        }
        self.outer.get(up as usize - 1).copied()
    }

    // The number of the cell that a place means.
    fn number(&self, globals: usize, place: Place) -> Option<u64>
        ensures { result ≡ found_in globals (layouts_of self.now) place }
    {
        match place {
            Place::Global(number) => global(globals, number),
            Place::Local(up, number) => match self.layout(up) {
                Some(layout) => inside(layout.block, number),
                None => global(globals, number),
            },
        }
    }

    // The number of the cell that receives a result.
    fn taking(&self, globals: usize, place: Option<Place>) -> Option<u64>
        ensures { result ≡ number_taking globals (layouts_of self.now) place }
    {
        match place {
            Some(place) => self.number(globals, place),
            None => global(globals, 0),
        }
    }
}

// The layouts from `first` on.
fn behind(layouts: &[FrameLayout], first: u32) -> &[FrameLayout]
    ensures { result.now ≡ drop first layouts.now }
{
    layouts.get(first as usize..).unwrap_or(&[])
}

fn global(globals: usize, number: u32) -> Option<u64>
    ensures { result ≡ found_global globals number }
{
    if (number as usize) < globals {
        Some(u64::from(number))
    } else {
        None
    }
}

fn inside(block: CellBlock, number: u32) -> Option<u64>
    ensures { result ≡ found_inside block number }
{
    if number < block.cells {
        Some(u64::from(block.first) + u64::from(number))
    } else {
        None
    }
}

/// Returns the number of the cell that a frame with this sight requests.
pub(crate) fn cell_asked(globals: usize, sight: &Sight, asked: &AskSlot) -> Option<u64>
    ensures { result ≡ cell_asked globals sight.now asked.now }
{
    match asked.small_ask() {
        Some(SmallAsk::Read(place)) | Some(SmallAsk::Write(place, _)) => {
            sight.number(globals, *place)
        }
        Some(SmallAsk::Result(_)) => sight.result,
        _ => None,
    }
}

/// Returns whether a requested cell is the plan's.
pub(crate) fn cell_matches(found: Option<u64>, cell: Cell) -> PlanMatch
    ensures { MatchesCell found cell result }
{
    match found {
        Some(number) if number == u64::from(cell) => PlanMatch::Follows,
        _ => PlanMatch::Departs,
    }
}
