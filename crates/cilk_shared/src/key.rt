//! The event order of a yard's run. It exists in contracts alone and takes no memory.

ghost use Rattle.std.specs.Prelude.{◌≡◌, ℤ, List};
ghost use Rattle.std.specs.Borrow.{ftrue};
ghost use Rattle.cilk_tree.specs.declared.event_order.EventOrder.{EventOrder};

use cilk_types::input::Input;
use std::marker::Model;

/// The event order of a yard's run. It takes no bytes.
#[derive(Drop)]
pub struct EventOrderKey {
    pub ghost event_order: { EventOrder },
}

impl Model for EventOrderKey {
    ghost also_owns = { λ _. ftrue };
}

impl EventOrderKey {
    /// Returns the event order of the run on this input, where `along` gives one for each input.
    pub(crate) fn of(input: &Input) -> EventOrderKey
        ghost along: { List ℤ → EventOrder }
        ensures { result.event_order ≡ along input.now }
    {
        let _ = input;
        EventOrderKey {}
    }
}
