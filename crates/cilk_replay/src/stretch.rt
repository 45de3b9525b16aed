//! Stretches: events that one frame requests one after another.

ghost use Rattle.std.specs.Prelude.{◌≡◌, ◌-◌, ◌≤◌, ◌++◌, ◌∷◌, [], ℤ, List, IfSome};
ghost use Rattle.cilk_types.specs.declared.limits.TheConstants.{MAX_TICKS};
ghost use Rattle.cilk_program.specs.declared.ask.Callee.{Callee};
ghost use Rattle.cilk_program.specs.Syntax.{Source};
ghost use Rattle.cilk_frames.specs.Following.{Fits, Runs, Stands, word_in};
ghost use Rattle.cilk_shared.specs.Pieces.{PieceValue};
ghost use Rattle.cilk_replay.specs.Asking.{HasAsked};
ghost use Rattle.cilk_replay.specs.Making.{IsMadeIf, IsNextKind, IsWanted};
ghost use Rattle.cilk_replay.specs.Replays.{ReplayValue};
ghost use Rattle.cilk_replay.specs.Standing.{Stand};
ghost use Rattle.cilk_replay.specs.declared.replay_frame.ReplayFrame.{ReplayFrame};
ghost use Rattle.cilk_replay.specs.declared.sight.Sight.{Sight};

use crate::chain::compared;
use crate::plan_match::PlanMatch;
use crate::replay::Replay;
use crate::replay_frame::ReplayFrame;
use crate::sight::Sight;
use cilk_frames::asked::AskSlot;
use cilk_frames::cursor::{Answer, Cursor};
use cilk_frames::stepping::step_into;
use cilk_shared::piece::Piece;
use cilk_tree::kind::Kind;
use cilk_types::limits::MAX_TICKS;
use std::alloc::Global;
use std::mem;

/// Makes the events of a piece, as its frame requests them.
pub trait Maker {
    /// The replay whose events it makes.
    ghost of: { Self → ReplayValue };

    /// A piece that it was given has become another.
    ghost reaches: { Self → PieceValue → PieceValue → Type 0 };

    /// Returns the kind of the piece's next event, unless the maker stops before it, as it does
    /// before the run's last event.
    fn next(&self, piece: &Piece) -> Option<Kind>
        ensures { IfSome result (λ kind. IsNextKind (of self.now) piece.now.upto kind) };

    /// Makes the piece's next event, and returns the answer to its frame. Without an answer the
    /// event isn't made.
    fn make(&self, piece: &mut Piece, kind: Kind, asked: &AskSlot) -> Option<Answer>
        requires reached { (first : PieceValue) × reaches self.now first piece.old }
        requires wanted { IsWanted (of self.now) piece.old.upto kind asked.now }
        ensures reached { (first : PieceValue) → reaches self.now first piece.old → reaches self.now first piece.new }
        ensures made { IsMadeIf (of self.now) piece.old piece.new result };
}

// The answer to a frame's request, if it makes the plan's event and the maker does so.
#[inline(always)]
fn granted<M: Maker>(
    replay: &Replay,
    sight: &Sight,
    asked: &AskSlot,
    maker: &M,
    piece: &mut Piece,
) -> Option<Answer>
    requires replay { M.of maker.now ≡ replay.now }
    requires reached { (first : PieceValue) × M.reaches maker.now first piece.old }
    requires stands { (l : ReplayFrame) × (below : List ReplayFrame) × (l.sight ≡ sight.now)
        × Stand replay.now piece.old.upto asked.now l below }
    ensures reached { (first : PieceValue) → M.reaches maker.now first piece.old → M.reaches maker.now first piece.new }
    ensures made { IsMadeIf replay.now piece.old piece.new result }
{
    let kind = maker.next(piece)?;
    match compared(replay, sight, asked, kind) {
        PlanMatch::Follows => maker.make(piece, kind, asked),
        PlanMatch::Departs => None,
    }
}

// Continues a frame whose cursor and ticks are local values, up to its next request.
#[inline(always)]
fn step_on(
    replay: &Replay,
    cursor: &mut Cursor,
    answer: Answer,
    left: &mut u32,
    asked: &mut AskSlot,
)
    requires runs { Runs replay.now.code replay.now.inputs cursor.old }
    requires fits { Fits cursor.old.owed answer }
    requires few { left.old ≤ MAX_TICKS }
    ensures few { left.new ≤ MAX_TICKS }
    ensures asks { (p : Source) (callee : Callee) (history : List ℤ) (s : Sight)
        → Stands replay.now.code replay.now.inputs p callee cursor.old history (MAX_TICKS - left.old)
        → HasAsked replay.now.code replay.now.inputs p callee (history ++ word_in answer ∷ []) asked.new
        (record { cursor = cursor.new; took = MAX_TICKS - left.new; sight = s }) }
{
    step_into(replay.code(), replay.input(), cursor, answer, left, asked);
}

impl ReplayFrame {
    /// Makes the frame's next events, as long as the maker makes them. Meanwhile the cursor and the
    /// ticks are local values, so that they stay in registers.
    #[inline(always)]
    pub(crate) fn along<M: Maker>(
        &mut self,
        alloc: Global,
        replay: &Replay,
        asked: &mut AskSlot,
        maker: &M,
        piece: &mut Piece,
    )
        requires replay { M.of maker.now ≡ replay.now }
        requires reached { (first : PieceValue) × M.reaches maker.now first piece.old }
        requires stands { (below : List ReplayFrame) × Stand replay.now piece.old.upto asked.old self.old below }
        ensures reached { (first : PieceValue) → M.reaches maker.now first piece.old
            → M.reaches maker.now first piece.new }
        ensures stands { (below : List ReplayFrame) → Stand replay.now piece.old.upto asked.old self.old below
            → Stand replay.now piece.new.upto asked.new self.new below }
    {
        let Some(told) = granted(replay, &self.sight, asked, maker, piece) else {
            return;
        };
        let mut cursor = mem::replace(&mut self.cursor, Cursor::idle(alloc));
        let mut left = MAX_TICKS - self.took;
        let mut answer = told;
        'each: loop {
            step_on(replay, &mut cursor, answer, &mut left, asked);
            match granted(replay, &self.sight, asked, maker, piece) {
                Some(next) => answer = next,
                None => return self.put_back(cursor, left),
            }
        }
    }

    // Puts back the cursor, with the ticks that are left.
    #[inline(always)]
    fn put_back(&mut self, cursor: Cursor, left: u32)
        requires { left ≤ MAX_TICKS }
        ensures { self.new ≡ record self.old { cursor = cursor; took = MAX_TICKS - left } }
    {
        self.cursor = cursor;
        self.took = MAX_TICKS - left;
    }
}
