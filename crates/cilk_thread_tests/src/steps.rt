//! The next event of a segment, made according to the yard's event order.

ghost use Rattle.std.specs.Prelude.{◌≡◌, ◌↔◌, ℕ, ◌<◌, ◌≤◌, length, IfSome, IsSome, IsTrue};
ghost use Rattle.cilk_tree.specs.Runs.{IsAsked};
ghost use Rattle.cilk_tree.specs.Word.{event, resume, word_step};
ghost use Rattle.cilk_tree.specs.Along.{IsAlong};
ghost use Rattle.cilk_shared.specs.Values.{CanTake, IsTaken, OfYard};
ghost use Rattle.cilk_thread_tests.specs.Settings.{AreOf};

use cilk_shared::taken::Taken;
use cilk_shared::yard::{Segment, Yard};
use cilk_tree::plan::Plan;
use cilk_types::event::{Cell, Event, Pos};
use std::alloc::Global;

/// The result of a step.
#[derive(Clone, Copy, PartialEq, Eq, Debug)]
pub enum Done {
    /// A read returned this value.
    Loaded(i64),
    Stored,
    /// A spawn was offered under this ticket.
    Offered(Pos),
    /// An event that isn't a step on a shared word was passed.
    Passed,
    /// The root's `end` was made.
    Finished,
    /// The run doesn't make the event at this position.
    Departed(Pos),
    /// The next event can't be made here.
    Nothing,
}

/// Makes the segment's next event where the yard allows it, unless the event is the `resume` after
/// a spawn. `events` are those of the yard's event order, and `asked` says which of them the run
/// makes.
pub fn step(
    yard: &Yard,
    plan: &Plan,
    events: &[Event],
    asked: &[bool],
    segment: &mut Segment,
) -> Done
    requires yard { OfYard yard.now segment.old }
    requires run { AreOf yard.now.event_order plan.now events.now asked.now }
    ensures { OfYard yard.now segment.new }
{
    let at = segment.upto();
    let has_next = segment.from() < at && at as usize <= events.len();
    if !has_next || yard_resumes(yard, plan, at) {
        Done::Nothing
    } else if is_asked(yard, asked, at) {
        made(yard, plan, events, segment)
    } else {
        Done::Departed(segment.departs(yard))
    }
}

// Makes the next event, which the run has.
fn made(yard: &Yard, plan: &Plan, events: &[Event], segment: &mut Segment) -> Done
    requires yard { OfYard yard.now segment.old }
    requires along { IsAlong plan.now yard.now.event_order }
    requires events { events.now ≡ yard.now.event_order.events }
    requires some { segment.old.from < segment.old.upto }
    requires asked { IsAsked yard.now.event_order segment.old.upto }
    ensures { OfYard yard.now segment.new }
{
    let at = segment.upto();
    let Some(event) = event_at(yard, events, at) else {
        return Done::Nothing;
    };
    match event {
        Event::Read { cell, .. } if has_cell(yard, plan, cell) => {
            Done::Loaded(yard.load(segment, cell))
        }
        Event::Write { cell, value } if has_cell(yard, plan, cell) => {
            yard.store(segment, cell, value);
            Done::Stored
        }
        Event::Spawn { .. } => Done::Offered(yard.offer(segment)),
        Event::End if at as usize == events.len() => {
            yard.finish(segment);
            Done::Finished
        }
        _ => passed(yard, plan, segment),
    }
}

// Passes the next event, which the run has. It must not be a step on a shared word, and the segment
// has to hold the event directly before it.
fn passed(yard: &Yard, plan: &Plan, segment: &mut Segment) -> Done
    requires yard { OfYard yard.now segment.old }
    requires along { IsAlong plan.now segment.old.event_order }
    requires asked { IsAsked segment.old.event_order segment.old.upto }
    ensures { OfYard yard.now segment.new }
{
    if segment.may_pass(plan) {
        segment.pass(plan);
        Done::Passed
    } else {
        Done::Nothing
    }
}

/// Takes the continuation after the spawn `ticket`, for a segment that is empty or ends just before
/// the `resume`. Returns the yard's answer, or `None` where the continuation can't be requested or
/// there is no such spawn.
pub fn take(yard: &Yard, asked: &[bool], segment: &mut Segment, ticket: Pos) -> Option<Taken>
    requires yard { OfYard yard.now segment.old }
    requires asked { asked.now ≡ yard.now.event_order.asked }
    ensures yard { OfYard yard.now segment.new }
    ensures tried { IfSome result (λ taken. IsTaken yard.now segment.old ticket segment.new taken) }
    ensures untried { (p : ℕ) → word_step yard.now.event_order p ≡ resume ticket → IsAsked yard.now.event_order p → CanTake yard.now segment.old ticket → IsSome result }
{
    let at = yard.resumption(ticket)?;
    let goes_on = segment.from() < segment.upto();
    if goes_on && segment.upto() != at {
        return None;
    }
    if !is_asked(yard, asked, at) {
        return None;
    }
    Some(yard.take(segment, ticket))
}

/// Returns the values of the first cells after the run, if the segment covers the run, the run has
/// these cells, and there is memory for them.
pub fn last_values(
    alloc: Global,
    yard: Yard,
    plan: &Plan,
    events: &[Event],
    segment: Segment,
    count: usize,
) -> Option<Vec<i64>>
    requires yard { OfYard yard segment }
    requires along { IsAlong plan.now yard.event_order }
    requires events { events.now ≡ yard.event_order.events }
{
    let whole = segment.from() == 1 && segment.last() as usize == events.len();
    if !whole || events.is_empty() || !has_cells(&yard, plan, count) {
        return None;
    }
    yard.globals(alloc, segment, count).ok()
}

// The event at a position.
fn event_at(yard: &Yard, events: &[Event], at: Pos) -> Option<Event>
    requires { events.now ≡ yard.now.event_order.events }
    ensures { result ≡ event yard.now.event_order at }
{
    events.get(at.saturating_sub(1) as usize).copied()
}

// Whether the run makes the event at a position.
fn is_asked(yard: &Yard, asked: &[bool], at: Pos) -> bool
    requires { asked.now ≡ yard.now.event_order.asked }
    ensures { IsTrue result ↔ IsAsked yard.now.event_order at }
{
    match asked.get(at.saturating_sub(1) as usize) {
        Some(found) => *found,
        None => false,
    }
}

// Whether the event at a position is the `resume` after a spawn.
fn yard_resumes(yard: &Yard, plan: &Plan, at: Pos) -> bool
    requires { IsAlong plan.now yard.now.event_order }
    ensures { (k : ℕ) → word_step yard.now.event_order at ≡ resume k → IsTrue result }
{
    plan.resumed_by(at).is_some()
}

// Whether the run has this many cells.
fn has_cells(yard: &Yard, plan: &Plan, count: usize) -> bool
    requires { IsAlong plan.now yard.now.event_order }
    ensures { IsTrue result → count ≤ length yard.now.event_order.opening }
{
    count <= plan.opening().len()
}

// Whether the run has this cell.
fn has_cell(yard: &Yard, plan: &Plan, cell: Cell) -> bool
    requires { IsAlong plan.now yard.now.event_order }
    ensures { IsTrue result → cell < length yard.now.event_order.opening }
{
    (cell as usize) < plan.opening().len()
}
