//! Laws of marks, each the contract of an empty function.

ghost use Rattle.cilk_oblivious.specs.Pairs.{InstructionsAreOblivious};
ghost use Rattle.cilk_oblivious.specs.Twins.{ObliviousRunsHaveTwins};
ghost use Rattle.cilk_oblivious.specs.Every.{ObliviousRunsSettleEvery, ObliviousRunsRaceOnEvery, ObliviousRunsStopOnEvery, ObliviousRunsViewRaceOnEvery};

/// An instruction that isn't blocked makes the same request on alike inputs, words and operands.
#[tactic(auto, using(crate::proofs::Oblivious::all_oblivious))]
pub fn instructions_are_oblivious()
    ensures { InstructionsAreOblivious }
{}

/// An oblivious run has a twin on each input that differs in hidden numbers alone: the same requests
/// and events but for their values, and the same end.
pub fn oblivious_runs_have_twins()
    ensures { ObliviousRunsHaveTwins }
{}

/// One oblivious serial run without a fault and without a race settles every parallel run, on every
/// input that differs from its own in hidden numbers alone.
pub fn oblivious_runs_settle_every_input()
    ensures { ObliviousRunsSettleEvery }
{}

/// An oblivious run's first race is the first race on every such input.
pub fn oblivious_runs_race_on_every_input()
    ensures { ObliviousRunsRaceOnEvery }
{}

/// An oblivious run that stops by a fault stops by it on every such input, after as many events.
pub fn oblivious_runs_stop_on_every_input()
    ensures { ObliviousRunsStopOnEvery }
{}

/// If an oblivious run has no determinacy race, its first view-read race is the first one on every such
/// input.
pub fn oblivious_runs_view_race_on_every_input()
    ensures { ObliviousRunsViewRaceOnEvery }
{}
