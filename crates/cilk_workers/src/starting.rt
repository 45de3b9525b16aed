//! The events that start a child: spawns and calls.

ghost use Rattle.std.specs.Prelude.{◌≡◌, ℕ, ◌+◌, ◌<◌, ◌≤◌, Some, length};
ghost use Rattle.cilk_tree.specs.declared.kind.Kind.TheVariants as kinds;
ghost use Rattle.cilk_tree.specs.Word.{event};
ghost use Rattle.cilk_workers.specs.BegunTurn.{IsStart};
ghost use Rattle.cilk_workers.specs.Shared.{event_order_in};
ghost use Rattle.cilk_workers.specs.Turns.{HasMore, IsDue, OffersSpawn, Turned};
ghost use Rattle.cilk_types.specs.declared.event.Event.TheVariants.{Begin};

use crate::shared::Shared;
use crate::work::{Turn, Work};
use cilk_replay::chain::Task;
use cilk_tree::kind::{Asked, Kind};
use cilk_types::event::{FrameNo, Pos};
use std::alloc::Global;

// The number of the frame that begins right after a spawn or a call.
fn frame_begun(shared: &Shared<'_>, at: Pos) -> FrameNo
    requires first { 1 ≤ at }
    requires start { IsStart (event (event_order_in shared.now) at) }
    requires more { at < length (event_order_in shared.now).events }
    ensures { event (event_order_in shared.now) (at + 1) ≡ Some (Begin result) }
{
    shared.laws();
    let Asked::Next { frame: _, kind } = shared.next(at + 1) else {
        unreachable!();
    };
    match kind {
        Kind::Begin { frame } => frame,
        _ => unreachable!(),
    }
}

/// The next event spawns a child: the worker continues with it, and offers the continuation.
pub(crate) fn spawned(alloc: Global, shared: &Shared<'_>, work: &mut Work) -> Turn
    requires due { (child : ℕ) × IsDue shared.now work.old (kinds.Spawn child) }
    requires more { HasMore shared.now work.old }
    ensures turned { Turned shared.now work.old.piece work.new result }
    ensures spawn { OffersSpawn (event_order_in shared.now) work.old.piece.upto result }
{
    let at = work.piece.upto();
    shared.laws();
    let Some(next) = shared.yard().resumption(at) else {
        unreachable!();
    };
    let frame = frame_begun(shared, at);
    let Ok(rest) = work.chain.spawn(alloc, shared.replay(), frame, next) else {
        return Turn::Stopped;
    };
    let ticket = work.piece.offer(shared.yard());
    Turn::Offers(Task::new(ticket, rest))
}

/// The next event calls a child.
pub(crate) fn called(alloc: Global, shared: &Shared<'_>, work: &mut Work) -> Turn
    requires due { (child : ℕ) × IsDue shared.now work.old (kinds.Call child) }
    requires more { HasMore shared.now work.old }
    ensures { Turned shared.now work.old.piece work.new result }
{
    let at = work.piece.upto();
    shared.laws();
    let frame = frame_begun(shared, at);
    let Ok(()) = work.chain.call(alloc, shared.replay(), frame) else {
        return Turn::Stopped;
    };
    work.piece.pass(shared.yard());
    Turn::Goes
}
