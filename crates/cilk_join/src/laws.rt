//! Laws of every history of a join: each list of steals and arrivals that are allowed when they are
//! made, in any order. Each law is a function that does nothing: its contract is the law.
//!
//! [`crate::join::Join::steal`] and [`crate::join::Join::arrive`] change the join as a step of a
//! history does (`joined`). If they run out of memory, the join is unchanged.

ghost use Rattle.cilk_join.specs.Laws.{AwaitedKeysAscend, AwaitedAreStolen, PiecesAscend, OwnPieceIsLast, RowsAreOfPieces, PartsAreFew, PassesWithAll, ArrivalsAnswer, PassesOnce};

/// The awaited keys ascend. They are exactly the stolen ones whose piece hasn't arrived.
pub fn awaited_keys_are_stolen()
    ensures ascend { AwaitedKeysAscend }
    ensures stolen { AwaitedAreStolen }
{}

/// Each key arrives once. The sync's own piece has the greatest key of all that arrive.
pub fn pieces_arrive_once()
    ensures once { PiecesAscend }
    ensures last { OwnPieceIsLast }
{}

/// Each run is the product, by ascending key, of the pieces that have arrived between two awaited
/// keys. There is at most one run more than there are awaited keys.
pub fn rows_are_of_pieces()
    ensures runs { RowsAreOfPieces }
    ensures parts { PartsAreFew }
{}

/// The block passes exactly when the sync's piece and that of each stolen child have arrived, with
/// the product of all pieces by ascending key, whatever their order of arrival. After that nothing
/// is stolen and nothing arrives, so it passes once.
pub fn passes_with_all()
    ensures passes { PassesWithAll }
    ensures answer { ArrivalsAnswer }
    ensures once { PassesOnce }
{}
