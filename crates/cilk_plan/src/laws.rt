//! Laws of the plans of accepted runs. Each law is a function that does nothing but cite others: its
//! contract is the law.

ghost use Rattle.cilk_plan.specs.Continuations.{BlocksOfSpawnsEnd, PlansHaveContinuations};
ghost use Rattle.cilk_plan.specs.Departures.{ObliviousRunsDepartNowhere};

use cilk_oblivious::laws::oblivious_runs_have_twins;
use cilk_replay::laws::like_runs_depart_nowhere;

/// A law of the language: among a serial run's events, the block of each spawn ends with a `sync`
/// of its frame.
pub fn blocks_of_spawns_end()
    ensures { BlocksOfSpawnsEnd }
{}

/// In the plan of an accepted run, each spawn has one continuation: one `resume`, and the `sync`
/// that ends its block.
pub fn plans_have_continuations()
    ensures { PlansHaveContinuations }
{}

/// An accepted run departs nowhere on an input that differs from its own in hidden numbers alone, if
/// no hidden number decides it.
pub fn oblivious_runs_depart_nowhere()
    ensures { ObliviousRunsDepartNowhere }
{
    oblivious_runs_have_twins();
    like_runs_depart_nowhere();
}
