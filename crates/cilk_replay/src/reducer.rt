//! The reducers that a frame sees, by their numbers in a plan's run.

ghost use Rattle.std.specs.Prelude.{◌≡◌, IfOk, map, slice_get, unwrap_or};
ghost use Rattle.cilk_program.specs.declared.syntax.Reducer.{Reducer};
ghost use Rattle.cilk_replay.specs.Reducing.{MatchesReducer, global_reducer, outer_given, own_reducer, reducer_asked, reducer_in};
ghost use Rattle.cilk_replay.specs.Sights.{layouts_of};

use crate::frame_layout::{FrameLayout, ReducerNumber};
use crate::plan_match::PlanMatch;
use crate::sight::Sight;
use cilk_frames::asked::AskSlot;
use cilk_frames::small_ask::SmallAsk;
use cilk_program::syntax::{Reducer, ReducerPlace};
use cilk_types::event::Instance;
use std::alloc::{AllocError, Global};

// The reducer that a place means.
fn number(sight: &Sight, place: ReducerPlace) -> ReducerNumber
    ensures { result ≡ reducer_in (layouts_of sight.now) sight.now.given.items place }
{
    match place {
        ReducerPlace::Global(number) => global(number),
        ReducerPlace::Own(up, number) => match sight.layout(up) {
            Some(layout) => own(layout, number),
            None => global(number),
        },
        ReducerPlace::Given(up, number) => {
            if up as usize == sight.outer.len() {
                among(&sight.given, number)
            } else {
                global(number)
            }
        }
    }
}

// A global reducer, which the root's frame creates.
fn global(number: u32) -> ReducerNumber
    ensures { result ≡ global_reducer number }
{
    ReducerNumber {
        frame: 1,
        place: u64::from(number) + 1,
    }
}

// A reducer that a frame creates for itself.
fn own(layout: FrameLayout, number: u32) -> ReducerNumber
    ensures { result ≡ own_reducer layout number }
{
    ReducerNumber {
        frame: layout.frame,
        place: u64::from(layout.before) + u64::from(number) + 1,
    }
}

// A reducer that was passed to a function.
fn among(given: &[ReducerNumber], number: u32) -> ReducerNumber
    ensures { result ≡ unwrap_or (slice_get given.now number) (global_reducer number) }
{
    match given.get(number as usize) {
        Some(reducer) => *reducer,
        None => global(number),
    }
}

/// Returns the reducers that a frame with this sight passes to a function.
pub(crate) fn given_to(
    alloc: Global,
    sight: &Sight,
    reducers: &[Reducer],
) -> Result<Vec<ReducerNumber>, AllocError>
    ensures { IfOk result (λ v. v.items ≡ map (λ (r : Reducer). reducer_in (layouts_of sight.now) sight.now.given.items r.place) reducers.now) }
{
    let mut numbers = Vec::new(alloc);
    'each: for reducer in reducers {
        numbers.push(number(sight, reducer.place))?;
    }
    Ok(numbers)
}

/// Returns the reducers that were passed to a function, for a loop in its body.
pub(crate) fn given_outer(
    alloc: Global,
    outer: &[FrameLayout],
    given: &[ReducerNumber],
) -> Result<Vec<ReducerNumber>, AllocError>
    ensures { IfOk result (λ v. v.items ≡ outer_given outer.now given.now) }
{
    let mut copied = Vec::new(alloc);
    if !outer.is_empty() {
        copied.extend_from_slice(given)?;
    }
    Ok(copied)
}

/// Returns the reducer that a frame with this sight requests.
pub(crate) fn reducer_asked(sight: &Sight, asked: &AskSlot) -> ReducerNumber
    ensures { result ≡ reducer_asked (layouts_of sight.now) sight.now.given.items asked.now }
{
    match asked.small_ask() {
        Some(SmallAsk::Create(reducer))
        | Some(SmallAsk::Update(reducer, _))
        | Some(SmallAsk::Set(reducer, _))
        | Some(SmallAsk::Value(reducer)) => number(sight, reducer.place),
        _ => global(0),
    }
}

/// Returns whether a requested reducer is the plan's.
pub(crate) fn reducer_matches(found: ReducerNumber, instance: Instance) -> PlanMatch
    ensures { MatchesReducer found instance result }
{
    if found.frame == instance.frame && found.place == u64::from(instance.place) {
        PlanMatch::Follows
    } else {
        PlanMatch::Departs
    }
}
