//! Laws of event orders. Each is a function that does nothing: its contract is the law.

ghost use Rattle.cilk_tree.specs.Orders.{EventOrdersAreOrderly};

/// The event order of a run is orderly if the run has no determinacy race and each frame syncs
/// after it spawned.
pub fn race_free_event_orders_are_orderly()
    ensures { EventOrdersAreOrderly }
{}
