//! The work of a worker, and the outcome of a turn.

ghost use Rattle.std.specs.Prelude.{◌≡◌};

use cilk_replay::chain::{Chain, Task};
use cilk_shared::piece::Piece;
use cilk_shared::taken::Denied;
use cilk_types::event::Pos;

/// The work of a worker: the piece that it has done, and the frame that runs at its end, with its
/// callers.
#[derive(Drop)]
pub struct Work {
    pub piece: Piece,
    pub chain: Chain,
}

impl Work {
    /// Returns the piece. The frames are dropped.
    pub fn into_piece(self) -> Piece
        ensures { result ≡ self.piece }
    {
        let Work { piece, chain: _ } = self;
        piece
    }
}

/// The outcome of a turn. The turn also changes the worker's piece and chain.
#[derive(Drop)]
pub enum Turn {
    /// The event is made, and the worker continues.
    Goes,
    /// The worker continues with a spawned child, and the continuation is to be offered.
    Offers(Task),
    /// The piece is at a `sync`, and children of its block are elsewhere.
    Arrives,
    /// A spawned child has ended, or the yard refused the continuation, since another worker took it.
    /// The worker can't continue with this chain.
    Ended(Option<Denied>),
    /// The root has ended, with this result.
    Finished(i64),
    /// The run departs from the plan at this position.
    Departed(Pos),
    /// The worker ran out of memory.
    Stopped,
}
