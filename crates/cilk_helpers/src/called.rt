//! The callees of frames in only the memory that their arguments need.

ghost use Rattle.std.specs.Prelude.{◌≡◌, IsTrue, IfOk, MatchOption, Some};
ghost use Rattle.cilk_program.specs.Inside.{CalleeIsFit};
ghost use Rattle.cilk_program.specs.Sources.{source};
ghost use Rattle.cilk_helpers.specs.Asked.{IsTooMuch, call_in, nothing};

use crate::callee::{is_call, same_part};
use crate::fits::{call_fits, part_fits};
use crate::note::Given;
use cilk_program::ask::{Callee, FunctionCall, LoopPart};
use cilk_program::program::Program;
use std::alloc::{AllocError, Global};
use std::marker::Model;

// A part of a loop that no frame runs.
const NOTHING: LoopPart = LoopPart {
    number: 0,
    up: 0,
    low: 0,
    high: 0,
};

/// The contents of a callee.
#[derive(Drop)]
pub enum Called {
    Root,
    Function(Box<Given>),
    Loop(LoopPart),
}

/// The callee of a frame. A [`Callee`] has room for all arguments that a function can have; this has
/// 40 bytes, and a call of a function its arguments besides.
#[derive(Drop)]
pub struct SmallCallee {
    called: Called,
}

impl Model for SmallCallee {
    ghost use Rattle.cilk_program.specs.declared.ask.Callee.{Callee};
    ghost use Rattle.cilk_helpers.specs.Asked.{callee_in};

    ghost Value = { Callee };

    ghost view = { λ c. callee_in c.called };
}

impl SmallCallee {
    /// The callee of the first frame.
    pub fn root() -> SmallCallee
        ensures { result ≡ Callee.Root }
    {
        SmallCallee {
            called: Called::Root,
        }
    }

    /// No turns of a loop. It marks a replay that wasn't made.
    pub fn nothing() -> SmallCallee
        ensures { result ≡ nothing }
    {
        SmallCallee::turns(NOTHING)
    }

    /// Some turns of a loop.
    pub fn turns(part: LoopPart) -> SmallCallee
        ensures { result ≡ Callee.Loop part }
    {
        SmallCallee {
            called: Called::Loop(part),
        }
    }

    /// A call of a function.
    pub fn function(alloc: Global, given: &Given) -> Result<SmallCallee, AllocError>
        ensures { IfOk result (λ c. c ≡ Callee.Function (call_in given.now)) }
    {
        let given = Box::new(alloc, given.copy(alloc)?)?;
        Ok(SmallCallee {
            called: Called::Function(given),
        })
    }

    /// Returns whether this is the callee of the first frame.
    pub fn is_root(&self) -> bool
        ensures { IsTrue result → self.now ≡ Callee.Root }
    {
        matches!(&self.called, Called::Root)
    }

    /// Returns whether this is the given call of a function.
    pub fn is_call(&self, call: &FunctionCall) -> bool
        ensures { IsTrue result → self.now ≡ Callee.Function call.now }
    {
        match &self.called {
            Called::Function(given) => is_call(given, call),
            _ => false,
        }
    }

    /// Returns whether this is the given part of a loop.
    pub fn is_part(&self, part: &LoopPart) -> bool
        ensures { IsTrue result → self.now ≡ Callee.Loop part.now }
    {
        match &self.called {
            Called::Loop(own) => same_part(part, own),
            _ => false,
        }
    }

    /// Returns whether the program has this callee, and the arguments fit it.
    pub fn fits(&self, program: &Program) -> bool
        ensures { IsTrue result → CalleeIsFit (source program.now) self.now }
    {
        match &self.called {
            Called::Root => true,
            Called::Function(given) => call_fits(program, given),
            Called::Loop(part) => part_fits(program, part),
        }
    }

    /// Returns the callee. `None` for a call with more arguments than a function can have.
    pub fn callee(&self) -> Option<Callee>
        ensures { MatchOption result (IsTooMuch (Some self.now)) (λ callee. callee ≡ self.now) }
    {
        match &self.called {
            Called::Root => Some(Callee::Root),
            Called::Function(given) => match given.call() {
                Some(call) => Some(Callee::Function(call)),
                None => None,
            },
            Called::Loop(part) => Some(Callee::Loop(*part)),
        }
    }
}
