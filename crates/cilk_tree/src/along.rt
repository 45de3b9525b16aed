//! Laws of the event orders along one plan: the runs of one plan on several inputs. Each is a
//! function that does nothing: its contract is the law.

ghost use Rattle.cilk_tree.specs.Along.{FollowsWhereItDepartsNowhere, EventOrdersAlongAreOrderly};

/// Every event order along an orderly plan is orderly, whatever its values. So the properties of
/// the order that workers rely on hold on each input; those of the values are not part of this law.
pub fn event_orders_along_are_orderly()
    ensures { EventOrdersAlongAreOrderly }
{}

/// A run that departs from its event order nowhere follows it at each position.
pub fn follows_where_it_departs_nowhere()
    ensures { FollowsWhereItDepartsNowhere }
{}
