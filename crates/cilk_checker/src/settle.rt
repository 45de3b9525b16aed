//! One serial run, checked for races, settles every parallel run.
//!
//! ```text
//! match settle(alloc, &program, &input)? {
//!     Verdict::Settled(outcome) => ..,       // the outcome of every parallel run that ends
//!     Verdict::Race(first) => ..,            // two positions of the serial run race
//! }
//! ```

ghost use Rattle.std.specs.Prelude.{IfOk, IfErr, List, MatchOption};
ghost use Rattle.cilk_types.specs.declared.event.Event.{Event};
ghost use Rattle.cilk_program.specs.Sources.{source};
ghost use Rattle.cilk_serial.specs.Ran.{IsRunFault};
ghost use Rattle.cilk_tree.specs.Shape.{Shape, Spells};
ghost use Rattle.cilk_tree.specs.Tree.{Tree, tree};
ghost use Rattle.cilk_tree.specs.Races.{HasNoRace, IsFirstRace};
ghost use Rattle.cilk_peers.specs.ViewRaces.{HasNoViewRace, IsFirstViewRace};
ghost use Rattle.cilk_checker.specs.Settled.{IsFirstOf, IsVerdict};

use crate::passes::labelled;
use cilk_cells::race::first_race;
use cilk_cells::view_race::first_view_read;
use cilk_determinacy::words::{inputs_are_words, programs_are_of_words};
use cilk_program::program::Program;
use cilk_serial::fault::RunFault;
use cilk_serial::run::run;
use cilk_types::event::Pos;
use cilk_types::input::Input;
use cilk_types::outcome::Outcome;
use cilk_types::trace::Trace;
use std::alloc::{AllocError, Global};

/// The first race of a serial run, by two positions of it, counted from 1.
#[derive(Clone, Copy)]
pub enum FirstRace {
    /// The first determinacy race: two accesses of one cell.
    Determinacy { earlier: Pos, later: Pos },
    /// No two accesses race, but two reducer-reads do: the creation of a reducer and its first use
    /// that may find another view.
    ViewRead { created: Pos, used: Pos },
}

/// The verdict on a program whose serial run ends without a fault.
#[derive(Drop)]
pub enum Verdict {
    /// No two positions race, and every parallel run that ends has this outcome.
    Settled(Outcome),
    /// Two positions race.
    Race(FirstRace),
}

/// Runs a program serially, and returns its outcome if no two positions of the run race. Then every
/// parallel run agrees with the serial one, and has this outcome once it has ended. Otherwise
/// returns the first race, as [`first_race`] and [`first_view_read`] say; an error if the run ends
/// by a fault. Cost: that of the serial run; memory: linear in its events.
pub fn settle(alloc: Global, program: &Program, input: &Input) -> Result<Verdict, RunFault>
    ensures verdict { IfOk result (λ v. IsVerdict (source program.now) input.now v) }
    ensures fault { IfErr result (λ e. IsRunFault (source program.now) input.now e) }
{
    programs_are_of_words(program);
    inputs_are_words(input);
    let (outcome, trace) = run(alloc, program, input)?;
    match race_of(alloc, &trace)? {
        Some(race) => Ok(Verdict::Race(race)),
        None => Ok(Verdict::Settled(outcome)),
    }
}

// Returns the first race, or `None` if no two positions race.
pub(crate) fn race_of(alloc: Global, trace: &Trace) -> Result<Option<FirstRace>, AllocError>
    ensures { IfOk result (λ found. (s : Shape) → Spells s trace.now → IsFirstOf (tree s) trace.now found) }
{
    let (labels, classes) = labelled(alloc, trace)?;
    let accesses = first_race(alloc, trace, &labels)?;
    drop(labels);
    let reads = first_view_read(alloc, trace, &classes)?;
    Ok(first_of(accesses, reads))
}

// Returns the first race of a list, given its first determinacy race and its first view-read race.
fn first_of(accesses: Option<(Pos, Pos)>, reads: Option<(Pos, Pos)>) -> Option<FirstRace>
    ensures { (t : Tree) (es : List Event) → MatchOption accesses (HasNoRace t es) (λ pair. IsFirstRace t es pair.0 pair.1)
        → MatchOption reads (HasNoViewRace t es) (λ pair. IsFirstViewRace t es pair.0 pair.1) → IsFirstOf t es result }
{
    match (accesses, reads) {
        (Some((earlier, later)), _) => Some(FirstRace::Determinacy { earlier, later }),
        (None, Some((created, used))) => Some(FirstRace::ViewRead { created, used }),
        (None, None) => None,
    }
}
