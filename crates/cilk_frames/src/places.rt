//! Finds the cells and reducers that a frame names. Each lookup costs one step per static link.

ghost use Rattle.std.specs.Prelude.{◌≡◌, ◌+◌, ◌<◌, ◌^◌, ℕ, None, Some, drop, slice_get, unwrap_or, IfOk, MatchOption};
ghost use Rattle.cilk_types.specs.declared.event.Instance.{Instance};
ghost use Rattle.cilk_program.specs.Scopes.{Scope, cell_in, instance_in, instances_in};
ghost use Rattle.cilk_program.specs.SerialRun.{global_reducer, itself};
ghost use Rattle.cilk_frames.specs.Sight.{AreSmall, HasScope, LinksTo, home_at, number_in};

use crate::activation::Activation;
use cilk_program::syntax::{Place, Reducer, ReducerPlace};
use cilk_types::event::{Cell, Instance};
use std::alloc::{AllocError, Global};

/// Returns the cell that a place means to the frame `top`.
#[inline(always)]
pub fn cell<C>(frames: &[Activation<C>], top: &Activation<C>, place: Place) -> Cell
    requires { (scope : Scope ℕ Instance) × HasScope frames.now top.now scope × (cell_in itself scope place < 2 ^ 32) }
    ensures { (scope : Scope ℕ Instance) → HasScope frames.now top.now scope → result ≡ cell_in itself scope place }
{
    match place {
        Place::Global(number) => number,
        Place::Local(0, number) => top.base + number,
        Place::Local(up, number) => match outer(frames, top, up) {
            Some(frame) => frame.base + number,
            None => number,
        },
    }
}

/// Returns the reducer that a place means to the frame `top`.
#[inline(always)]
pub fn instance<C>(frames: &[Activation<C>], top: &Activation<C>, place: ReducerPlace) -> Instance
    requires sees { (scope : Scope ℕ Instance) × HasScope frames.now top.now scope }
    requires small { number_in place < 65536 }
    ensures { (scope : Scope ℕ Instance) → HasScope frames.now top.now scope → result ≡ instance_in global_reducer scope place }
{
    match place {
        ReducerPlace::Global(number) => global(number),
        ReducerPlace::Own(0, number) => own(top, number),
        ReducerPlace::Own(up, number) => match outer(frames, top, up) {
            Some(frame) => own(frame, number),
            None => global(number),
        },
        ReducerPlace::Given(0, number) => given(top, number),
        ReducerPlace::Given(up, number) => match outer(frames, top, up) {
            Some(frame) => given(frame, number),
            None => global(number),
        },
    }
}

/// Returns the reducers that several places mean to the frame `top`.
pub fn instances<C>(
    alloc: Global,
    frames: &[Activation<C>],
    top: &Activation<C>,
    reducers: &[Reducer],
) -> Result<Vec<Instance>, AllocError>
    requires sees { (scope : Scope ℕ Instance) × HasScope frames.now top.now scope }
    requires small { AreSmall reducers.now }
    ensures { (scope : Scope ℕ Instance) → HasScope frames.now top.now scope → IfOk result (λ list. list.items ≡ instances_in global_reducer scope reducers.now) }
{
    let mut list = Vec::new(alloc);
    'each: for reducer in reducers {
        list.push(instance(frames, top, reducer.place))?;
    }
    Ok(list)
}

// A global reducer, which the root created.
#[inline]
fn global(number: u32) -> Instance
    requires { number < 65536 }
    ensures { result ≡ global_reducer number }
{
    Instance {
        frame: 1,
        place: number + 1,
    }
}

// A reducer that a frame created.
fn own<C>(frame: &Activation<C>, number: u32) -> Instance
    requires small { number < 65536 }
    requires low { frame.now.first < 65536 }
    ensures { result ≡ record { frame = frame.now.number; place = frame.now.first + number } }
{
    Instance {
        frame: frame.number,
        place: frame.first + number,
    }
}

// A reducer that a frame was given.
fn given<C>(frame: &Activation<C>, number: u32) -> Instance
    requires { number < 65536 }
    ensures { result ≡ unwrap_or (slice_get frame.now.given.items number) (global_reducer number) }
{
    match frame.given.as_slice().get(number as usize) {
        Some(instance) => *instance,
        None => global(number),
    }
}

// The frame that is `up` static links up, if there is one.
fn outer<'a, C>(
    frames: &'a [Activation<C>],
    top: &Activation<C>,
    up: u32,
) -> Option<&'a Activation<C>>
    requires { 0 < up }
    ensures { (scope : Scope ℕ Instance) → HasScope frames.now top.now scope → MatchOption result (slice_get scope up ≡ None) (λ frame. (slice_get scope up ≡ Some (home_at frame.now)) × (frame.now.first < 65536)) }
{
    let place = outer_place(frames, top, up)?;
    at(frames, place)
}

// Its index in the list.
fn outer_place<C>(frames: &[Activation<C>], top: &Activation<C>, up: u32) -> Option<usize>
    requires { 0 < up }
    ensures { (scope : Scope ℕ Instance) → HasScope frames.now top.now scope → LinksTo frames.now result (drop up scope) }
{
    let mut place = top.outer;
    'each: for _ in 1..up {
        let frame = at(frames, place?)?;
        place = frame.outer;
    }
    place
}

fn at<C>(frames: &[Activation<C>], place: usize) -> Option<&Activation<C>>
    ensures { MatchOption result (slice_get frames.now place ≡ None) (λ frame. slice_get frames.now place ≡ Some frame.now) }
{
    frames.get(place)
}
