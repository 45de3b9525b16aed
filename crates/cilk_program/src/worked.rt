//! Worked programs, whose events and outcomes are computed from the definition of their meaning.

ghost use Rattle.cilk_program.specs.Worked.{NothingRuns, CountdownRuns, EndlessStops, EdgesRun, LocalEdgesRun, DivisionByZeroStops, SkippedDivisionRuns, ShortInputStops, OperatorsRun, BranchesRun, NoReturnRuns, SumsRun, IndexOutsideStops, ChangeOutsideStops, ReadOutsideStops, RedeclaredRuns, TicksCount, FaultsInOrder};
ghost use Rattle.cilk_program.specs.WorkedFrames.{OneRuns, GetRuns, PutRuns, FilledByNone, FilledByOne, FilledByAll, FilledTooFar, FilledWithoutInput, TotalRuns, NestedRuns, DividedStops, PrintsRun, FibRuns, LinkedRuns, DeepStops, LimitsInOrder};
ghost use Rattle.cilk_program.specs.WorkedReducers.{ChangedRuns, HundredRuns, OrderedRuns, ReadEarlyRuns, ApartRuns, WrappedRuns, UntouchedRuns, LentRuns, PeekedRuns, DigitsRun, NinesRun, AgainRuns};

/// Programs of one frame make these events, and have this outcome or stop by this fault.
pub fn worked_statements()
    ensures nothing { NothingRuns }
    ensures countdown { CountdownRuns }
    ensures endless { EndlessStops }
    ensures edges { EdgesRun }
    ensures local_edges { LocalEdgesRun }
    ensures division_by_zero { DivisionByZeroStops }
    ensures skipped_division { SkippedDivisionRuns }
    ensures short_input { ShortInputStops }
    ensures operators { OperatorsRun }
    ensures branches { BranchesRun }
    ensures no_return { NoReturnRuns }
    ensures sums { SumsRun }
    ensures index_outside { IndexOutsideStops }
    ensures change_outside { ChangeOutsideStops }
    ensures read_outside { ReadOutsideStops }
    ensures redeclared { RedeclaredRuns }
    ensures ticks { TicksCount }
    ensures order { FaultsInOrder }
{}

/// Programs with calls, spawns and parallel loops make these events, and have this outcome or stop
/// by this fault.
pub fn worked_frames()
    ensures one { OneRuns }
    ensures get { GetRuns }
    ensures put { PutRuns }
    ensures filled_by_none { FilledByNone }
    ensures filled_by_one { FilledByOne }
    ensures filled_by_all { FilledByAll }
    ensures filled_too_far { FilledTooFar }
    ensures filled_without_input { FilledWithoutInput }
    ensures total { TotalRuns }
    ensures nested { NestedRuns }
    ensures divided { DividedStops }
    ensures prints { PrintsRun }
    ensures fib { FibRuns }
    ensures linked { LinkedRuns }
    ensures deep { DeepStops }
    ensures limits { LimitsInOrder }
{}

/// Programs with reducers make these events and have this outcome.
pub fn worked_reducers()
    ensures changed { ChangedRuns }
    ensures hundred { HundredRuns }
    ensures ordered { OrderedRuns }
    ensures read_early { ReadEarlyRuns }
    ensures apart { ApartRuns }
    ensures wrapped { WrappedRuns }
    ensures untouched { UntouchedRuns }
    ensures lent { LentRuns }
    ensures peeked { PeekedRuns }
    ensures digits { DigitsRun }
    ensures nines { NinesRun }
    ensures again { AgainRuns }
{}
