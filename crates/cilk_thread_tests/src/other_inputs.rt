//! A yard on other inputs than its plan's, by one thread.

ghost use Rattle.std.specs.Prelude.{◌≡◌};
ghost use Rattle.cilk_shared.specs.Values.{OfYard};
ghost use Rattle.cilk_thread_tests.specs.Settings.{AreOf};

use crate::settings::{Setting, squares_on_four, squares_on_three, turns_on_none, turns_on_seven};
use crate::steps::{Done, last_values, step, take};
use cilk_shared::taken::Taken;
use cilk_shared::yard::{Segment, Yard};
use cilk_tree::plan::Plan;
use cilk_types::event::{Event, Pos};
use std::test::Fail;

// Makes the events up to a position, as far as the run has them, and takes each continuation at its
// child's end. Returns the last result.
fn make_up_to(
    yard: &Yard,
    plan: &Plan,
    events: &[Event],
    asked: &[bool],
    segment: &mut Segment,
    last: Pos,
) -> Done
    requires yard { OfYard yard.now segment.old }
    requires run { AreOf yard.now.event_order plan.now events.now asked.now }
    ensures { OfYard yard.now segment.new }
{
    let mut done = Done::Passed;
    'events: for _at in segment.upto()..last.saturating_add(1) {
        if !matches!(done, Done::Departed(_) | Done::Nothing) {
            done = next(yard, plan, events, asked, segment);
        }
    }
    done
}

// Makes the next event.
fn next(yard: &Yard, plan: &Plan, events: &[Event], asked: &[bool], segment: &mut Segment) -> Done
    requires yard { OfYard yard.now segment.old }
    requires run { AreOf yard.now.event_order plan.now events.now asked.now }
    ensures { OfYard yard.now segment.new }
{
    let Some(ticket) = plan.resumed_by(segment.upto()) else {
        return step(yard, plan, events, asked, segment);
    };
    match take(yard, asked, segment, ticket) {
        Some(Taken::Yes) => Done::Passed,
        _ => Done::Nothing,
    }
}

// Whether the run departs at this position, short of its end.
fn departs(
    yard: &Yard,
    plan: &Plan,
    events: &[Event],
    asked: &[bool],
    segment: &mut Segment,
    place: Pos,
) -> bool
    requires yard { OfYard yard.now segment.old }
    requires run { AreOf yard.now.event_order plan.now events.now asked.now }
{
    let done = make_up_to(yard, plan, events, asked, segment, place);
    done == Done::Departed(place) && segment.upto() == place && !yard.ended(segment)
}

fn departs_at(setting: Setting, place: Pos) -> bool
    requires segment { OfYard setting.yard setting.segment }
    requires run { AreOf setting.yard.event_order setting.plan setting.events setting.asked.items }
{
    let Setting {
        plan,
        yard,
        mut segment,
        events,
        asked,
    } = setting;
    let (events, asked) = (events.as_slice(), asked.as_slice());
    departs(&yard, &plan, events, asked, &mut segment, place)
}

// Whether the run on four other numbers reads two of their squares, and then ends.
fn squares_four(
    yard: &Yard,
    plan: &Plan,
    events: &[Event],
    asked: &[bool],
    segment: &mut Segment,
) -> bool
    requires yard { OfYard yard.now segment.old }
    requires run { AreOf yard.now.event_order plan.now events.now asked.now }
    ensures { OfYard yard.now segment.new }
{
    let first = make_up_to(yard, plan, events, asked, segment, 57);
    let last = make_up_to(yard, plan, events, asked, segment, 58);
    let is_open = !yard.ended(segment);
    let ended = make_up_to(yard, plan, events, asked, segment, 60);
    first == Done::Loaded(25)
        && last == Done::Loaded(64)
        && is_open
        && ended == Done::Finished
        && yard.ended(segment)
}

#[test]
fn four_other_numbers_are_squared(rt: HostRuntime) -> Result<(), Fail> {
    let Setting {
        plan,
        yard,
        mut segment,
        events,
        asked,
    } = squares_on_four(rt.alloc())?;
    let events = events.as_slice();
    assert!(rt; squares_four(&yard, &plan, events, asked.as_slice(), &mut segment));
    let values = last_values(rt.alloc(), yard, &plan, events, segment, 4);
    let wanted = [25, 36, 49, 64];
    assert!(rt; matches!(&values, Some(values) if values.as_slice() == wanted.as_slice()));
    Ok(())
}

#[test]
fn runs_depart_at_the_event_that_they_do_not_ask_for(rt: HostRuntime) -> Result<(), Fail> {
    let alloc = rt.alloc();
    assert!(rt; departs_at(squares_on_three(alloc)?, 46));
    assert!(rt; departs_at(turns_on_none(alloc)?, 4));
    assert!(rt; departs_at(turns_on_seven(alloc)?, 6));
    Ok(())
}
