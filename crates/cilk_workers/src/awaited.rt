//! Where the pieces beside awaited keys begin and end.

ghost use Rattle.std.specs.Prelude.{◌≡◌, ◌↔◌, IsTrue};
ghost use Rattle.cilk_workers.specs.Rows.{behind, last_end, FitsFrom};

use cilk_join::row::Wait;
use cilk_shared::piece::Piece;
use cilk_types::event::Pos;

/// Returns the end of a run, or `at` if there is no run: a piece after it begins there.
pub fn end_of_run(run: &Option<Piece>, at: Pos) -> Pos
    ensures { result ≡ behind run.now at }
{
    match run {
        Some(piece) => piece.upto(),
        None => at,
    }
}

/// Returns whether the piece adjoins its neighbours. `begin` is where it must begin if no awaited
/// key is before it.
pub fn fits_from(waits: &[Wait<Pos, Piece>], begin: Pos, key: Pos, piece: &Piece) -> bool
    ensures { IsTrue result ↔ FitsFrom begin waits.now key piece.now }
{
    let mut at = begin;
    'each: for place in 0..waits.len() {
        let wait = &waits[place];
        if wait.key == key {
            return piece.from() == at && piece.upto() == wait.goes_on;
        }
        at = end_of_run(&wait.run, wait.goes_on);
    }
    piece.from() == at
}

/// Returns where the row ends, if the run before all awaited keys ends at `begin`.
pub fn end_of_all(waits: &[Wait<Pos, Piece>], begin: Pos) -> Pos
    ensures { result ≡ last_end begin waits.now }
{
    let mut at = begin;
    'each: for place in 0..waits.len() {
        let wait = &waits[place];
        at = end_of_run(&wait.run, wait.goes_on);
    }
    at
}
