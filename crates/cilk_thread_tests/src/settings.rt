//! Plans and yards of worked programs: an accepted program on its own input, and two written out
//! programs on other inputs.

ghost use Rattle.std.specs.Prelude.{◌≡◌, ◌∷◌, [], pos, true, replicate, IfOk};
ghost use Rattle.cilk_shared.specs.Values.{OfYard};
ghost use Rattle.cilk_thread_tests.specs.Others.{four, three};
ghost use Rattle.cilk_thread_tests.specs.Settings.{AreOf};

use crate::others::{
    asked_but_for, asked_on_none, squares, squares_plan, squares_yard, turns, turns_plan,
    turns_yard,
};
use cilk_checker::accepted::Accepted;
use cilk_plan::program_plan::plan;
use cilk_plan::yards::yard;
use cilk_shared::yard::{Segment, Yard};
use cilk_tree::plan::Plan;
use cilk_types::input::Input;
use cilk_types::trace::Trace;
use cilk_types::word_list::WordList;
use std::alloc::{AllocError, Global};

/// A plan, a yard whose event order follows it, the yard's first segment and events, and which
/// events its run makes.
#[derive(Drop)]
pub struct Setting {
    pub plan: Plan,
    pub yard: Yard,
    pub segment: Segment,
    pub events: Trace,
    pub asked: Vec<bool>,
}

/// Returns the setting of an accepted program on its own input, whose run makes every event.
pub fn on_its_own(alloc: Global, accepted: &Accepted) -> Result<Setting, AllocError>
    ensures segment { IfOk result (λ s. OfYard s.yard s.segment) }
    ensures run { IfOk result (λ s. AreOf s.yard.event_order s.plan s.events s.asked.items) }
{
    let whole = plan(alloc, accepted)?;
    let (yard, segment) = yard(alloc, &whole, accepted.input())?;
    let events = copied(alloc, accepted.trace())?;
    let asked = all_asked(alloc, events.len())?;
    whole.laws();
    Ok(Setting {
        plan: whole.into_events(),
        yard,
        segment,
        events,
        asked,
    })
}

// A copy of the events.
fn copied(alloc: Global, trace: &Trace) -> Result<Trace, AllocError>
    ensures { IfOk result (λ copy. copy ≡ trace.now) }
{
    let mut events = Vec::new(alloc);
    events.extend_from_slice(trace.as_slice())?;
    Ok(Trace::new(events))
}

// A list for `count` events, which are all made.
fn all_asked(alloc: Global, count: usize) -> Result<Vec<bool>, AllocError>
    ensures { IfOk result (λ asked. asked.items ≡ replicate count true) }
{
    Vec::from_elem(alloc, true, count)
}

/// Returns the setting of the first program on 5 6 7 8, along its run on 1 2 3 4.
pub fn squares_on_four(alloc: Global) -> Result<Setting, AllocError>
    ensures segment { IfOk result (λ s. OfYard s.yard s.segment) }
    ensures run { IfOk result (λ s. AreOf s.yard.event_order s.plan s.events s.asked.items) }
{
    let plan = squares_plan(alloc)?;
    let (yard, segment) = squares_yard(alloc, &plan, &four_numbers(alloc)?)?;
    let events = squares(alloc, 25, 36, 49, 64)?;
    let asked = asked_but_for(alloc, 60, 0, 0)?;
    Ok(Setting {
        plan,
        yard,
        segment,
        events,
        asked,
    })
}

/// Returns the setting of the first program on 5 6 7, along the same run. The frame of the last
/// turn makes none of its events after the 45th.
pub fn squares_on_three(alloc: Global) -> Result<Setting, AllocError>
    ensures segment { IfOk result (λ s. OfYard s.yard s.segment) }
    ensures run { IfOk result (λ s. AreOf s.yard.event_order s.plan s.events s.asked.items) }
{
    let plan = squares_plan(alloc)?;
    let (yard, segment) = squares_yard(alloc, &plan, &three_numbers(alloc)?)?;
    let events = squares(alloc, 25, 36, 49, 16)?;
    let asked = asked_but_for(alloc, 45, 4, 11)?;
    Ok(Setting {
        plan,
        yard,
        segment,
        events,
        asked,
    })
}

/// Returns the setting of the second program on 0, along its run on 1.
pub fn turns_on_none(alloc: Global) -> Result<Setting, AllocError>
    ensures segment { IfOk result (λ s. OfYard s.yard s.segment) }
    ensures run { IfOk result (λ s. AreOf s.yard.event_order s.plan s.events s.asked.items) }
{
    let plan = turns_plan(alloc)?;
    let (yard, segment) = turns_yard(alloc, &plan, &number(alloc, 0)?)?;
    let events = turns(alloc, 0)?;
    let asked = asked_on_none(alloc)?;
    Ok(Setting {
        plan,
        yard,
        segment,
        events,
        asked,
    })
}

/// Returns the setting of the second program on 7, along its run on 1.
pub fn turns_on_seven(alloc: Global) -> Result<Setting, AllocError>
    ensures segment { IfOk result (λ s. OfYard s.yard s.segment) }
    ensures run { IfOk result (λ s. AreOf s.yard.event_order s.plan s.events s.asked.items) }
{
    let plan = turns_plan(alloc)?;
    let (yard, segment) = turns_yard(alloc, &plan, &number(alloc, 7)?)?;
    let events = turns(alloc, 7)?;
    let asked = asked_but_for(alloc, 5, 4, 6)?;
    Ok(Setting {
        plan,
        yard,
        segment,
        events,
        asked,
    })
}

fn number(alloc: Global, n: i64) -> Result<Input, AllocError>
    ensures { IfOk result (λ input. input ≡ n ∷ []) }
{
    let mut list = WordList::new(alloc);
    list.push(n)?;
    Ok(Input::new(list))
}

fn three_numbers(alloc: Global) -> Result<Input, AllocError>
    ensures { IfOk result (λ input. input ≡ three) }
{
    let mut list = WordList::new(alloc);
    list.push(5)?;
    list.push(6)?;
    list.push(7)?;
    Ok(Input::new(list))
}

fn four_numbers(alloc: Global) -> Result<Input, AllocError>
    ensures { IfOk result (λ input. input ≡ four) }
{
    let mut list = WordList::new(alloc);
    list.push(5)?;
    list.push(6)?;
    list.push(7)?;
    list.push(8)?;
    Ok(Input::new(list))
}
