//! The theorem on the language and the laws around it. Each is a function that does nothing: its
//! contract is the law.

ghost use Rattle.std.specs.Prelude.{ℤ, List};
ghost use Rattle.cilk_program.specs.Syntax.{Source};
ghost use Rattle.cilk_determinacy.specs.Theorem.{TicksAddUp, SerialRunsByNames, SerialRunsAreNumbered, CountsAsSerial, OpensAsCut, StepsKeepCuts, CutsAreAsSerial, IsDeterminateProgram};
ghost use Rattle.cilk_determinacy.specs.Words.{SetsWords, IsDeterminateInWords};
ghost use Rattle.cilk_determinacy.specs.Worked.{GetIsFree, GetLeaves, LentIsFree, LentLeaves, ChangedIsFree, ChangedLeaves, AgainIsFree, AgainLeaves};

/// With d more ticks a frame's next ask is the same, with d more ticks left, unless the ticks had
/// run out. After one more answer no more ticks are left than before. So each frame's ticks can be
/// counted separately, as the free machine does.
pub fn ticks_add_up()
    ensures { (p : Source) (inputs : List ℤ) → TicksAddUp p inputs }
{}

/// If the numbers of a program and its inputs are words, its serial run sets reducers to words
/// only.
pub fn words_make_words()
    ensures { (p : Source) (inputs : List ℤ) → SetsWords p inputs }
{}

/// The serial run of a well-named program that ends without a fault and sets reducers to words only
/// is, by names and nested, a serial run in the sense of [`machine_laws`](crate::machine_laws). Each
/// frame makes the asks of its behaviour, reads and values are right, reducers are created before
/// they are used and retired by the frames that created them, and no total exceeds its limit.
pub fn serial_run_by_names()
    ensures { (p : Source) (inputs : List ℤ) → SerialRunsByNames p inputs }
{}

/// If a serial run of a well-named program ends without a fault, its list of events is that of the
/// run by names, with the cell and reducer numbers of
/// [`events::events_have_numbers`](crate::events::events_have_numbers), and it spells the shape of
/// the nested run.
pub fn serial_run_is_numbered()
    ensures { (p : Source) (inputs : List ℤ) → SerialRunsAreNumbered p inputs }
{}

/// Over a whole run the free machine counts the same ticks, events, frames and cells as the serial
/// run.
pub fn totals_are_serial()
    ensures { (p : Source) (inputs : List ℤ) → CountsAsSerial p inputs }
{}

/// The opening state of the free machine is a consistent cut.
pub fn opening_is_a_cut()
    ensures { (p : Source) (inputs : List ℤ) → OpensAsCut p inputs }
{}

/// If the serial run meets the premises of `race_free_programs_are_determinate`, each step of the
/// free machine leads from a consistent cut of it to a consistent cut.
pub fn step_keeps_cuts()
    ensures { (p : Source) (inputs : List ℤ) → StepsKeepCuts p inputs }
{}

/// If the serial run meets the premises of `race_free_programs_are_determinate`, each consistent
/// cut agrees with that run. Nothing has stopped it, each frame's deeds are a prefix of the serial
/// ones, each child was joined at most once, and no total exceeds the serial run's. Once the first
/// frame has ended the outcome is the serial elision's. So a scheduler that starts with
/// `opening_is_a_cut` and makes steps by `step_keeps_cuts` ends with that outcome.
pub fn cuts_are_as_serial()
    ensures { (p : Source) (inputs : List ℤ) → CutsAreAsSerial p inputs }
{}

/// A well-named program is determinate if its serial run ends without a fault, sets reducers to
/// words only, and has no two positions with a determinacy race or a view-read race. Whatever steps
/// the free machine makes, in any order, nothing stops it. Each frame makes the events of the
/// serial run with the same values, the state is a consistent cut, and no total exceeds the serial
/// run's. Once the first frame has ended, its result, the global cells, the output and the global
/// reducers are those of the serial elision, each spawned child was joined exactly once, and the
/// totals are the serial run's. Until then fewer events are made.
///
/// Determinacy races are those of Feng and Leiserson (1997), view-read races those of Lee and
/// Schardl (2015).
pub fn race_free_programs_are_determinate()
    ensures { (p : Source) (inputs : List ℤ) → IsDeterminateProgram p inputs }
{}

/// The same theorem without a premise on sets, if each number that the program writes and each
/// input is a word, as in every program text and every input of the code. `settle` needs no such
/// premise.
pub fn programs_of_words_are_determinate()
    ensures { (p : Source) (inputs : List ℤ) → IsDeterminateInWords p inputs }
{}

/// Worked programs whose serial runs have no race: two spawned readers, a list lent to two spawned
/// children, a global list that is set and printed, and a main function that calls itself. Their
/// outcomes are the serial ones whatever steps are made.
pub fn worked_programs()
    ensures get { GetIsFree }
    ensures get_leaves { GetLeaves }
    ensures lent { LentIsFree }
    ensures lent_leaves { LentLeaves }
    ensures changed { ChangedIsFree }
    ensures changed_leaves { ChangedLeaves }
    ensures again { AgainIsFree }
    ensures again_leaves { AgainLeaves }
{}
