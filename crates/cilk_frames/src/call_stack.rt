//! A running frame and the frames that wait for it.

ghost use Rattle.std.specs.Prelude.{◌≡◌, ◌<◌, ◌^◌, ◌∷◌, ◌++◌, [], ℕ, true, false, length, OnErr, OnOk};
ghost use Rattle.cilk_types.specs.declared.event.Instance.{Instance};
ghost use Rattle.cilk_program.specs.Scopes.{Scope, cell_in, instance_in};
ghost use Rattle.cilk_program.specs.SerialRun.{global_reducer, itself};
ghost use Rattle.cilk_frames.specs.Sight.{HasScope, number_in};

use crate::activation::Activation;
use crate::places::{cell, instance};
use cilk_program::syntax::{Place, ReducerPlace};
use cilk_types::event::{Cell, Instance};
use std::alloc::{AllocError, Global};
use std::mem;

/// A stack of frames. `top` runs, and each frame in `below` waits for the next one, from the bottom
/// up.
#[derive(Drop)]
pub struct CallStack<C> {
    pub top: Activation<C>,
    pub below: Vec<Activation<C>>,
}

impl<C> CallStack<C> {
    /// Makes a stack of one frame.
    pub fn new(alloc: Global, top: Activation<C>) -> Self
        ensures top { result.top ≡ top }
        ensures below { result.below.items ≡ [] }
    {
        CallStack {
            top,
            below: Vec::new(alloc),
        }
    }

    /// Returns the number of frames that wait.
    pub fn depth(&self) -> usize
        ensures { result ≡ length self.now.below.items }
    {
        self.below.len()
    }

    /// Returns the cell that a place means to the running frame.
    #[inline(always)]
    pub fn cell(&self, place: Place) -> Cell
        requires { (scope : Scope ℕ Instance) × HasScope self.now.below.items self.now.top scope × (cell_in itself scope place < 2 ^ 32) }
        ensures { (scope : Scope ℕ Instance) → HasScope self.now.below.items self.now.top scope → result ≡ cell_in itself scope place }
    {
        cell(self.below.as_slice(), &self.top, place)
    }

    /// Returns the reducer that a place means to the running frame.
    #[inline(always)]
    pub fn reducer(&self, place: ReducerPlace) -> Instance
        requires sees { (scope : Scope ℕ Instance) × HasScope self.now.below.items self.now.top scope }
        requires small { number_in place < 65536 }
        ensures { (scope : Scope ℕ Instance) → HasScope self.now.below.items self.now.top scope → result ≡ instance_in global_reducer scope place }
    {
        instance(self.below.as_slice(), &self.top, place)
    }

    /// Makes `frame` the running frame, which the previous one waits for. If memory is refused, the
    /// frames are unchanged, and the new one is dropped.
    #[inline(always)]
    pub fn push(&mut self, frame: Activation<C>) -> Result<(), AllocError>
    where
        C: Drop,
        ensures top { OnOk result (self.new.top ≡ frame) }
        ensures below { OnOk result (self.new.below.items ≡ self.old.below.items ++ self.old.top ∷ []) }
        ensures err { OnErr result ((self.new.top ≡ self.old.top) × (self.new.below.items ≡ self.old.below.items)) }
    {
        self.below.reserve(1)?;
        let Activation {
            cursor,
            number,
            base,
            first,
            given,
            outer,
            result,
            creator,
        } = frame;
        // Field by field, so that the frame that waits is copied once.
        let top = &mut self.top;
        let waits = Activation {
            cursor: mem::replace(&mut top.cursor, cursor),
            number: mem::replace(&mut top.number, number),
            base: mem::replace(&mut top.base, base),
            first: mem::replace(&mut top.first, first),
            given: mem::replace(&mut top.given, given),
            outer: mem::replace(&mut top.outer, outer),
            result: mem::replace(&mut top.result, result),
            creator: mem::replace(&mut top.creator, creator),
        };
        self.below.push_reserved(waits);
        Ok(())
    }

    /// Drops the running frame, and continues the topmost frame that waits. Returns false and
    /// changes nothing if none waits.
    pub fn pop(&mut self) -> bool
    where
        C: Drop,
        ensures some { result ≡ true → self.old.below.items ≡ self.new.below.items ++ self.new.top ∷ [] }
        ensures none { result ≡ false → (self.old.below.items ≡ []) × (self.new.below.items ≡ []) × (self.new.top ≡ self.old.top) }
    {
        match self.below.pop() {
            None => false,
            Some(frame) => {
                self.top = frame;
                true
            }
        }
    }
}
