//! Stretches of a worker: events of one frame that need no other worker.

ghost use Rattle.cilk_replay.specs.Making.{IsMadeIf, IsWanted};
ghost use Rattle.cilk_shared.specs.Pieces.{PieceValue};
ghost use Rattle.cilk_workers.specs.Bursts.{GrowsOn, Reaches};
ghost use Rattle.cilk_workers.specs.Shared.{event_order_in};
ghost use Rattle.cilk_workers.specs.Turns.{Works};

use crate::asking::number_in;
use crate::gate::{Gate, tell};
use crate::shared::Shared;
use crate::work::Work;
use cilk_frames::asked::AskSlot;
use cilk_frames::cursor::Answer;
use cilk_replay::stretch::Maker;
use cilk_shared::piece::Piece;
use cilk_tree::kind::{Asked, Kind};
use cilk_types::event::Pos;
use std::alloc::Global;

/// The greatest number of events of a stretch.
const STRETCH: u32 = 15;

/// Makes a worker's events up to position `until`: its reads and writes; and a `begin`, a `resume`
/// or a `sync` whose immediate predecessors are in the piece.
#[derive(Drop)]
pub struct EventMaker<'a, 'b, G: Gate> {
    shared: &'a Shared<'b>,
    gate: &'a G,
    worker: u32,
    until: Pos,
}

impl<'a, 'b, G: Gate> EventMaker<'a, 'b, G> {
    // Makes the next event, if it is one of these.
    #[inline(always)]
    fn made(&self, piece: &mut Piece, kind: Kind, asked: &AskSlot) -> Option<Answer>
        requires reached { (first : PieceValue) × Reaches self.now.shared.now first piece.old }
        requires wanted { IsWanted self.now.shared.now.replay piece.old.upto kind asked.now }
        ensures reached { (first : PieceValue) → Reaches self.now.shared.now first piece.old
            → Reaches self.now.shared.now first piece.new }
        ensures made { IsMadeIf self.now.shared.now.replay piece.old piece.new result }
    {
        let shared = self.shared;
        shared.laws();
        match kind {
            Kind::Read { cell } => {
                let value = piece.load(shared.yard(), cell);
                Some(Answer::Value(value))
            }
            Kind::Write { cell } => {
                let Some(number) = number_in(asked) else {
                    return None;
                };
                piece.store(shared.yard(), cell, number);
                Some(Answer::Done)
            }
            Kind::Begin { .. } | Kind::Resume { .. } | Kind::Sync => {
                if !piece.segment().may_pass(shared.plan()) {
                    return None;
                }
                piece.pass(shared.yard());
                Some(Answer::Done)
            }
            _ => None,
        }
    }
}

impl<'a, 'b, G: Gate> Maker for EventMaker<'a, 'b, G> {
    ghost use Rattle.cilk_workers.specs.Bursts.{Reaches};

    ghost of = { λ m. m.shared.now.replay };

    ghost reaches = { λ m first p. Reaches m.shared.now first p };

    #[inline(always)]
    fn next(&self, piece: &Piece) -> Option<Kind> {
        let at = piece.upto();
        self.shared.laws();
        if at >= self.until || self.shared.is_last(at) {
            return None;
        }
        let Asked::Next { frame: _, kind } = self.shared.next(at) else {
            return None;
        };
        match kind {
            Kind::Begin { .. }
            | Kind::Resume { .. }
            | Kind::Sync
            | Kind::Read { .. }
            | Kind::Write { .. } => Some(kind),
            _ => None,
        }
    }

    #[inline(always)]
    fn make(&self, piece: &mut Piece, kind: Kind, asked: &AskSlot) -> Option<Answer> {
        let before = piece.upto();
        let answer = self.made(piece, kind, asked)?;
        tell(self.gate, self.worker, self.shared, before, piece);
        Some(answer)
    }
}

/// Makes up to `STRETCH` events of a worker, as long as an [`EventMaker`] makes them. Each would be a
/// turn that continues with the same frame.
#[inline(never)]
pub(crate) fn along<G: Gate>(
    alloc: Global,
    shared: &Shared<'_>,
    gate: &G,
    worker: u32,
    work: &mut Work,
)
    requires { Works shared.now work.old }
    ensures works { Works shared.now work.new }
    ensures grows { GrowsOn (event_order_in shared.now) work.old.piece.upto work.new.piece.upto }
{
    let maker = EventMaker {
        shared,
        gate,
        worker,
        until: work.piece.upto().saturating_add(STRETCH),
    };
    shared.laws();
    work.chain
        .along(alloc, shared.replay(), &maker, &mut work.piece);
}
