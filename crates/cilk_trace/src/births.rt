//! The reducers of a trace that are alive, and where each was created.

ghost use Rattle.std.specs.Prelude.{◌≡◌, None, IfOk, IfSome, IfNone, OnSome};
ghost use Rattle.cilk_trace.specs.Reducers.{Suits};
ghost use Rattle.cilk_trace.specs.Births.{birth_of, alive_in, kept_of, set_at};

use crate::line::Line;
use cilk_types::event::{Pos, StrandNo};
use std::alloc::{AllocError, Global};
use std::collections::HashMap;

/// A line of a reducer: its strand, and its position.
#[derive(Clone, Copy)]
pub struct Birth {
    pub strand: StrandNo,
    pub at: Pos,
}

/// The creations of the reducers that are alive.
pub struct Births {
    births: HashMap<u32, Birth>,
}

// A function of its own, so that a proof follows one call where the births are dropped.
impl Drop for Births {
    fn drop(self) {
        let Births { births: _births } = self;
    }
}

impl Births {
    ghost use Rattle.std.specs.Prelude.{ℕ};

    /// Makes the births of no line.
    pub fn new(alloc: Global) -> Births
        ensures { (r : ℕ) → birth_of result r ≡ None }
    {
        Births {
            births: HashMap::new(alloc),
        }
    }

    /// Takes the next line, which is at `here`, and returns where the view was set that it reads:
    /// for a `value` that is the reducer's creation, for other lines it is `here`. It returns none
    /// where no trace has this line here: a reducer that is alive is created, or another one used.
    pub fn meet(&mut self, line: &Line, here: Birth) -> Result<Option<Birth>, AllocError>
        ensures suits { IfOk result (λ o. OnSome o (Suits line.now (alive_in self.old))) }
        ensures set { IfOk result (λ o. IfSome o (λ b. b ≡ set_at line.now here (birth_of self.old))) }
        ensures kept { IfOk result (λ o. OnSome o ((r : ℕ) → birth_of self.new r ≡ kept_of line.now r here (birth_of self.old r))) }
        ensures unchanged { IfOk result (λ o. IfNone o ((r : ℕ) → birth_of self.new r ≡ birth_of self.old r)) }
        ensures misplaced { IfOk result (λ o. IfNone o (Suits line.now (alive_in self.old) → ⊥)) }
    {
        match *line {
            Line::Create { reducer, .. } => {
                if self.births.contains_key(&reducer) {
                    return Ok(None);
                }
                self.births.insert(reducer, here)?;
                Ok(Some(here))
            }
            Line::Update { reducer, .. } => {
                let is_alive = self.births.contains_key(&reducer);
                Ok(if is_alive { Some(here) } else { None })
            }
            Line::Value { reducer, .. } => Ok(self.births.get(&reducer).copied()),
            Line::Retire { reducer, .. } => {
                let birth = self.births.remove(&reducer);
                Ok(if birth.is_some() { Some(here) } else { None })
            }
            _ => Ok(Some(here)),
        }
    }
}
