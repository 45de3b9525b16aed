//! Names of runs: types that represent a run in rules, which can't mention its values.

use std::marker::Brand;

/// A name of a run: its yard with its reducers, its replay, and the fact that is known of a task
/// that a picker has taken.
///
/// Each run chooses these. A rack can promise `taken` of a task only if a picker has taken it,
/// since only the holder of the right to pick can say it.
pub trait Naming {
    ghost use Rattle.cilk_workers.specs.Rows.{RunValue};
    ghost use Rattle.cilk_replay.specs.Replays.{ReplayValue};
    ghost use Rattle.cilk_replay.specs.declared.chain.Task.{Task};

    ghost run: { RunValue };

    ghost replay: { ReplayValue → Type 0 };

    ghost taken: { Task → Type 0 };
}

impl Naming for Brand {
    ghost use Rattle.cilk_workers.specs.Namings.{no_replay, no_run, no_taken};

    ghost run = { no_run };

    ghost replay = { no_replay };

    ghost taken = { no_taken };
}
