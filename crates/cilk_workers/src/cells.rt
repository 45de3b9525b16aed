//! Reads and writes of cells.

ghost use Rattle.cilk_tree.specs.declared.kind.Kind.TheVariants as kinds;
ghost use Rattle.cilk_workers.specs.Turns.{HasMore, IsDue, Turned};

use crate::asking::number_asked;
use crate::shared::Shared;
use crate::work::{Turn, Work};
use cilk_frames::cursor::Answer;
use cilk_types::event::Cell;

/// The next event reads a cell.
pub(crate) fn loaded(shared: &Shared<'_>, work: &mut Work, cell: Cell) -> Turn
    requires due { IsDue shared.now work.old (kinds.Read cell) }
    requires more { HasMore shared.now work.old }
    ensures { Turned shared.now work.old.piece work.new result }
{
    shared.laws();
    let value = work.piece.load(shared.yard(), cell);
    work.chain.answer(shared.replay(), Answer::Value(value));
    Turn::Goes
}

/// The next event writes a cell.
pub(crate) fn stored(shared: &Shared<'_>, work: &mut Work, cell: Cell) -> Turn
    requires due { IsDue shared.now work.old (kinds.Write cell) }
    requires more { HasMore shared.now work.old }
    ensures { Turned shared.now work.old.piece work.new result }
{
    shared.laws();
    let number = number_asked(&work.chain);
    work.piece.store(shared.yard(), cell, number);
    work.chain.answer(shared.replay(), Answer::Done);
    Turn::Goes
}
