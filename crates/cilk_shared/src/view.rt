//! The range that a seat of the table has done. It exists in contracts alone.

use cilk_tree::event_order::EventOrder;

/// The positions from `from` up to `upto`, without `upto` itself.
pub struct View {
    pub event_order: EventOrder,
    pub from: u64,
    pub upto: u64,
}
