//! Laws of join boxes and their shelves. Each law is a function that does nothing: its contract is
//! the law.
//!
//! [`crate::join::JoinBox::record_steal`] and [`crate::join::JoinBox::arrive`] change a box as a step
//! of a history does (`joined`). If they run out of memory, the box is unchanged. Steals and arrivals
//! at a shelf ([`crate::locks`]) change it as a step of its history does.

ghost use Rattle.cilk_workers.specs.Answers.{PassesOnce};
ghost use Rattle.cilk_workers.specs.Histories.{ArrivalsAnswer, BoxesHaveLaws};
ghost use Rattle.cilk_workers.specs.ShelfHistories.{BlocksPassOnce};

/// A box passes once: after that nothing is stolen at it and nothing arrives.
pub fn passes_once()
    ensures { PassesOnce }
{}

/// After every history, each key has arrived once, and the awaited keys are exactly the stolen ones
/// whose piece hasn't arrived. A key is the lowest exactly if no lower one was stolen or has arrived.
/// A box passes exactly when the sync's own piece and that of each stolen child have arrived, and each
/// arrival is answered so.
pub fn passes_with_all()
    ensures laws { BoxesHaveLaws }
    ensures answer { ArrivalsAnswer }
{}

/// After every history of a shelf, each block has passed once at most. At a block that has passed
/// nothing is stolen and nothing arrives. A block has one box at most on it, and each box there has a
/// history.
pub fn blocks_pass_once()
    ensures { BlocksPassOnce }
{}
