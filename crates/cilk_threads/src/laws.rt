//! Laws of runs without a view-read race. Each law is a function that does nothing: its contract is
//! the law.

ghost use Rattle.std.specs.Prelude.{◌≡◌};
ghost use Rattle.cilk_threads.specs.declared.seeds.TheConstants.{MAX_ROOM};
ghost use Rattle.cilk_threads.specs.Finals.{WholeViewsAreLast};
ghost use Rattle.cilk_threads.specs.Laws.{RaceFreeRunsAreSettled, EventOrdersAlongAreSettled};
ghost use Rattle.cilk_threads.specs.Numbers.{AcceptedEventOrdersHaveNumbers, EventOrdersAlongHaveNumbers};

/// In a serial run that ends without a fault and has no view-read race, the reducers are settled:
/// no event between an event of a reducer and a later one that reads, resets or ends it is parallel
/// to the later one. Each spawned child begins right after its spawn.
pub fn race_free_runs_are_settled()
    ensures { RaceFreeRunsAreSettled }
{}

/// The reducers are settled in each event order along the plan of such a run, so on other inputs
/// too.
pub fn event_orders_along_are_settled()
    ensures { EventOrdersAlongAreSettled }
{}

/// The views of all events of a serial run that ends without a fault give the last values of the
/// global reducers and the numbers that it printed.
pub fn whole_views_are_last()
    ensures { WholeViewsAreLast }
{}

/// On all inputs of words, in the event order along the plan of a serial run: if a frame requests
/// the value of a reducer, it is the number of the reducer's view over the events before it in
/// serial order.
pub fn event_orders_along_have_numbers()
    ensures { EventOrdersAlongHaveNumbers }
{}

/// The same for each event order along the plan of an accepted run, with the table of its reducers.
pub fn accepted_event_orders_have_numbers()
    ensures { AcceptedEventOrdersHaveNumbers }
{}

/// The room of all racks together, as a number, for contracts that name the constant.
pub fn room_is()
    ensures { MAX_ROOM ≡ 262144 }
{}
