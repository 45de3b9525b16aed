//! The answer to a thread that wants to take a continuation.

ghost use Rattle.std.specs.Prelude.{◌≡◌};

use cilk_types::event::Pos;
use std::marker::Model;

/// Whether the thread has taken the continuation.
#[derive(Drop)]
pub enum Taken {
    /// It has. Its segment continues there.
    Yes,
    /// It has not: the continuation was taken before, isn't offered yet, or the plan has no spawn
    /// there.
    No(Denied),
}

/// A refusal to give the continuation of the spawn at a ticket. Only [`crate::yard::Yard::take`]
/// makes one, so who has one has asked for that continuation. Contracts see the ticket.
#[derive(Drop)]
pub struct Denied {
    ticket: Pos,
}

impl Model for Denied {
    ghost use Rattle.std.specs.Prelude.{ℕ};

    ghost Value = { ℕ };

    ghost view = { λ d. d.ticket };
}

impl Denied {
    /// Makes the refusal of a ticket.
    pub(crate) fn of(ticket: Pos) -> Denied
        ensures { result ≡ ticket }
    {
        Denied { ticket }
    }

    /// Returns the ticket, the position of the spawn.
    pub fn ticket(&self) -> Pos
        ensures { result ≡ self.now }
    {
        self.ticket
    }
}
