//! The plans of worked programs.

use crate::texts::{GETS, TURNS, accepted};
use cilk_checker::accepted::Accepted;
use cilk_plan::program_plan::{ProgramPlan, plan};
use cilk_program::program::Body;
use cilk_tree::kind::{Asked, Kind};
use cilk_tree::plan::Plan;
use cilk_types::event::{Cell, FrameNo, Instance, Pos};
use std::alloc::Global;

// The events of the run of two calls, without values, each with its frame.
const GETS_EVENTS: [(FrameNo, Kind); 22] = [
    (1, Kind::Begin { frame: 1 }),
    (1, Kind::Write { cell: 1 }),
    (1, Kind::Write { cell: 2 }),
    (1, Kind::Spawn { child: 2 }),
    (2, Kind::Begin { frame: 2 }),
    (2, Kind::Read { cell: 0 }),
    (2, Kind::Sync),
    (2, Kind::Write { cell: 1 }),
    (2, Kind::End),
    (1, Kind::Resume { parent: 1 }),
    (1, Kind::Spawn { child: 3 }),
    (3, Kind::Begin { frame: 3 }),
    (3, Kind::Read { cell: 0 }),
    (3, Kind::Sync),
    (3, Kind::Write { cell: 2 }),
    (3, Kind::End),
    (1, Kind::Resume { parent: 1 }),
    (1, Kind::Sync),
    (1, Kind::Read { cell: 1 }),
    (1, Kind::Read { cell: 2 }),
    (1, Kind::Sync),
    (1, Kind::End),
];

// The positions of its steps on shared words. The last is the root's `end`.
const GETS_WORDS: [Pos; 13] = [2, 3, 4, 6, 8, 10, 11, 13, 15, 17, 19, 20, 22];

const GETS_STRANDS: [Pos; 9] = [1, 5, 7, 10, 12, 14, 17, 18, 21];

const GETS_FRAMES: [(Body, Cell); 3] = [
    (Body::Function(1), 1),
    (Body::Function(0), 3),
    (Body::Function(0), 3),
];

const TURNS_FRAMES: [(Body, Cell); 2] = [(Body::Function(0), 7), (Body::Loop(0), 8)];

// A spawned call gets a list of its caller.
const PUTS: &str = "void put(int cilk_reducer(append) l, int x) { update(l, x); } \
    int main() { int cilk_reducer(append) a; set(a, 7); cilk_spawn put(a, 1); cilk_sync; print(value(a)); return 0; }";

// The first reducer that the first frame creates.
const LIST: Instance = Instance { frame: 1, place: 1 };

// The events of the run of a call that gets a list. Every event of that reducer has the same
// instance, whichever frame makes it.
const PUTS_EVENTS: [(FrameNo, Kind); 16] = [
    (1, Kind::Begin { frame: 1 }),
    (1, Kind::Create { instance: LIST }),
    (1, Kind::Set { instance: LIST }),
    (1, Kind::Spawn { child: 2 }),
    (2, Kind::Begin { frame: 2 }),
    (2, Kind::Write { cell: 0 }),
    (2, Kind::Read { cell: 0 }),
    (2, Kind::Update { instance: LIST }),
    (2, Kind::Sync),
    (2, Kind::End),
    (1, Kind::Resume { parent: 1 }),
    (1, Kind::Sync),
    (1, Kind::Value { instance: LIST }),
    (1, Kind::Print),
    (1, Kind::Sync),
    (1, Kind::End),
];

// Whether the plan has exactly these events, in order.
fn has_events(plan: &Plan, events: &[(FrameNo, Kind)]) -> bool {
    let mut after: Pos = 0;
    for (frame, kind) in events {
        let (frame, kind) = (*frame, *kind);
        if plan.next(after) != (Asked::Next { frame, kind }) {
            return false;
        }
        after = after.saturating_add(1);
    }
    plan.next(after) == Asked::Nothing
}

// The earliest event directly before one of the run of two calls: the spawn for a `resume`, the
// first child's end for the `sync` of both, and the previous event for all others.
fn earliest_before(at: Pos) -> Option<Pos> {
    match at {
        1 => None,
        10 => Some(4),
        17 => Some(11),
        18 => Some(9),
        _ => Some(at.saturating_sub(1)),
    }
}

// Whether exactly the wanted positions of that run are steps on shared words, and each event has
// the wanted one directly before it.
fn has_order(plan: &Plan) -> bool {
    for at in 1..23 {
        let is_word = plan.is_word(at) == GETS_WORDS.contains(&at);
        if !is_word || plan.earliest_before(at) != earliest_before(at) {
            return false;
        }
    }
    !plan.is_word(23)
}

// Whether both spawns of the two calls are resumed, in the one block with spawns.
fn has_continuations(plan: &ProgramPlan<'_>) -> bool {
    for at in [10, 17, 18] {
        if plan.blocks().get(at) != Some(&0) {
            return false;
        }
    }
    plan.events().resumed_by(10) == Some(4)
        && plan.events().resumed_by(17) == Some(11)
        && plan.syncs() == [18].as_slice()
        && plan.firsts() == [4].as_slice()
        && plan.blocks().get(4) == Some(&u32::MAX)
}

// Whether the strands begin at exactly these positions.
fn has_strands(plan: &ProgramPlan<'_>, starts: &[Pos]) -> bool {
    let mut number: u32 = 0;
    for start in starts {
        number = number.saturating_add(1);
        if plan.strands().get(*start as usize) != Some(&number) {
            return false;
        }
    }
    for strand in plan.strands() {
        if *strand > number {
            return false;
        }
    }
    true
}

// Whether these are all frames, numbered from 1, with their bodies and first cells.
fn has_frames(plan: &ProgramPlan<'_>, frames: &[(Body, Cell)]) -> bool {
    let mut number: FrameNo = 0;
    for (body, first_cell) in frames {
        number = number.saturating_add(1);
        let Some(frame) = plan.frame(number) else {
            return false;
        };
        if frame.body != *body || frame.first_cell != *first_cell {
            return false;
        }
    }
    plan.frame(0).is_none() && plan.frame(number.saturating_add(1)).is_none()
}

fn is_of_gets(plan: &ProgramPlan<'_>) -> bool {
    has_events(plan.events(), &GETS_EVENTS)
        && has_order(plan.events())
        && plan.events().opening() == [7, 0, 0].as_slice()
        && has_continuations(plan)
        && has_strands(plan, &GETS_STRANDS)
        && has_frames(plan, &GETS_FRAMES)
}

// The part of a plan that a test looks at.
#[derive(Clone, Copy)]
enum Look {
    Gets,
    Puts,
    Turns,
}

fn is_as_wanted(alloc: Global, accepted: &Accepted, look: Look) -> bool {
    let Ok(plan) = plan(alloc, accepted) else {
        return false;
    };
    match look {
        Look::Gets => is_of_gets(&plan),
        Look::Puts => has_events(plan.events(), &PUTS_EVENTS),
        Look::Turns => has_frames(&plan, &TURNS_FRAMES),
    }
}

// Only this function holds the program, so the test has a short proof.
fn has(alloc: Global, text: &str, numbers: &str, look: Look) -> bool {
    match accepted(alloc, text, numbers) {
        Some(accepted) => is_as_wanted(alloc, &accepted, look),
        None => false,
    }
}

#[test]
fn runs_have_their_plans(rt: HostRuntime) {
    assert!(rt; has(rt.alloc(), GETS, "", Look::Gets));
    assert!(rt; has(rt.alloc(), PUTS, "", Look::Puts));
    assert!(rt; has(rt.alloc(), TURNS, "1", Look::Turns));
}
