//! The events by which a frame continues, waits or ends. Each function requires that the frame
//! requests its event.

ghost use Rattle.std.specs.Prelude.{◌≡◌, Some, length};
ghost use Rattle.cilk_tree.specs.Frames.{IsInFrame};
ghost use Rattle.cilk_tree.specs.declared.kind.Kind.{Kind};
ghost use Rattle.cilk_tree.specs.declared.kind.Kind.TheVariants as kinds;
ghost use Rattle.cilk_tree.specs.Runs.{IsAsked};
ghost use Rattle.cilk_tree.specs.Word.{event, plain, resume, word_step};
ghost use Rattle.cilk_types.specs.declared.event.Event.TheVariants.{Sync};
ghost use Rattle.cilk_workers.specs.Shared.{event_order_in};
ghost use Rattle.cilk_workers.specs.Turns.{HasMore, IsDue, IsSilent, OffersSpawn, Turned, Works};

use crate::asking::result_asked;
use crate::shared::Shared;
use crate::work::{Turn, Work};
use cilk_frames::cursor::Answer;
use cilk_shared::taken::Taken;
use cilk_types::event::{FrameNo, Pos};
use std::alloc::Global;

/// A `begin`, or the `resume` after a call.
pub(crate) fn passed(shared: &Shared<'_>, work: &mut Work) -> Turn
    requires due { (kind : Kind) × IsDue shared.now work.old kind × IsSilent kind }
    requires more { HasMore shared.now work.old }
    requires plain { word_step (event_order_in shared.now) work.old.piece.upto ≡ plain }
    requires ordinary { event (event_order_in shared.now) work.old.piece.upto ≡ Some Sync → ⊥ }
    ensures { Turned shared.now work.old.piece work.new result }
{
    shared.laws();
    work.piece.pass(shared.yard());
    work.chain.answer(shared.replay(), Answer::Done);
    Turn::Goes
}

/// A `sync`. The worker is held up only where a child of the block is elsewhere.
pub(crate) fn synced(shared: &Shared<'_>, work: &mut Work) -> Turn
    requires due { IsDue shared.now work.old kinds.Sync }
    requires more { HasMore shared.now work.old }
    ensures { Turned shared.now work.old.piece work.new result }
{
    if !work.piece.segment().may_pass(shared.plan()) {
        work.piece.laws();
        shared.replay().awaits();
        shared.replay().begins_in_blocks();
        return Turn::Arrives;
    }
    work.piece.pass(shared.yard());
    work.chain.answer(shared.replay(), Answer::Done);
    Turn::Goes
}

/// The `resume` after the spawn at `ticket`.
pub(crate) fn taken(shared: &Shared<'_>, work: &mut Work, ticket: Pos) -> Turn
    requires due { (kind : Kind) × IsDue shared.now work.old kind × IsSilent kind }
    requires more { HasMore shared.now work.old }
    requires resumes { word_step (event_order_in shared.now) work.old.piece.upto ≡ resume ticket }
    ensures { Turned shared.now work.old.piece work.new result }
{
    shared.laws();
    match work.piece.take(shared.yard(), ticket) {
        Taken::Yes => {
            work.chain.answer(shared.replay(), Answer::Done);
            Turn::Goes
        }
        Taken::No(denied) => {
            work.piece.laws();
            shared.replay().holds_spawns();
            Turn::Ended(Some(denied))
        }
    }
}

/// A child's `end`.
pub(crate) fn ended(alloc: Global, shared: &Shared<'_>, work: &mut Work, frame: FrameNo) -> Turn
    requires due { IsDue shared.now work.old kinds.End }
    requires more { HasMore shared.now work.old }
    requires frame { IsInFrame (event_order_in shared.now).events work.old.piece.upto frame }
    ensures { Turned shared.now work.old.piece work.new result }
{
    shared.laws();
    work.piece.end(shared.yard(), shared.reducers(), frame);
    if work.chain.end(alloc, shared.replay()) {
        Turn::Goes
    } else {
        work.piece.laws();
        shared.replay().holds_spawns();
        Turn::Ended(None)
    }
}

/// The root's `end`.
pub(crate) fn finished(shared: &Shared<'_>, work: &mut Work, root: FrameNo) -> Turn
    requires works { Works shared.now work.old }
    requires asked { IsAsked (event_order_in shared.now) work.old.piece.upto }
    requires last { work.old.piece.upto ≡ length (event_order_in shared.now).events }
    requires root { IsInFrame (event_order_in shared.now).events work.old.piece.upto root }
    ensures turned { Turned shared.now work.old.piece work.new result }
    ensures spawn { OffersSpawn (event_order_in shared.now) work.old.piece.upto result }
{
    shared.laws();
    work.piece.segment().follows(shared.yard());
    let value = result_asked(&work.chain);
    work.piece.finish(shared.yard(), shared.reducers(), root);
    Turn::Finished(value)
}
