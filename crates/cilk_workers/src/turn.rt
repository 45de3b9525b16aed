//! A turn of a worker: one event of the run.

ghost use Rattle.std.specs.Prelude.{◌≡◌, ◌≤◌, ℕ, Some, length, IfOk, MatchResult};
ghost use Rattle.cilk_workers.specs.Rows.{OfRun};
ghost use Rattle.cilk_tree.specs.Frames.{IsInFrame};
ghost use Rattle.cilk_tree.specs.declared.kind.Kind.TheVariants as kinds;
ghost use Rattle.cilk_tree.specs.Runs.{IsAsked};
ghost use Rattle.cilk_workers.specs.Shared.{event_order_in};
ghost use Rattle.cilk_workers.specs.Turns.{HasMore, IsDue, IsThief, OffersSpawn, Turned, Works};

use crate::asking::stands_within;
use crate::cells::{loaded, stored};
use crate::passing::{ended, finished, passed, synced, taken};
use crate::reducing::{created, printed, set, updated, valued};
use crate::shared::Shared;
use crate::starting::{called, spawned};
use crate::work::{Turn, Work};
use cilk_frames::cursor::Answer;
use cilk_replay::chain::{Chain, Task};
use cilk_replay::plan_match::PlanMatch;
use cilk_shared::piece::Piece;
use cilk_shared::taken::{Denied, Taken};
use cilk_tree::kind::{Asked, Kind};
use cilk_types::event::FrameNo;
use std::alloc::{AllocError, Global};

/// Returns the work of the first worker, once the root has begun.
pub fn first(alloc: Global, shared: &Shared<'_>, piece: Piece) -> Result<Work, AllocError>
    requires piece { OfRun shared.now.run piece × (piece.from ≡ 1) × (piece.upto ≡ 2) }
    ensures { IfOk result (Works shared.now) }
{
    shared.laws();
    let mut chain = Chain::root(alloc, shared.replay())?;
    chain.answer(shared.replay(), Answer::Done);
    Ok(Work { piece, chain })
}

// The frame requests another event than the plan has. That is no `resume` after a spawn, which the
// frame requested.
fn departed(shared: &Shared<'_>, work: &Work) -> Turn
    requires works { Works shared.now work.now }
    requires within { work.now.piece.upto ≤ length (event_order_in shared.now).events }
    requires differs { IsAsked (event_order_in shared.now) work.now.piece.upto → ⊥ }
    ensures turned { Turned shared.now work.now.piece work.now result }
    ensures spawn { OffersSpawn (event_order_in shared.now) work.now.piece.upto result }
{
    shared.replay().resumes();
    let segment = work.piece.segment();
    segment.has_followed();
    Turn::Departed(segment.departs(shared.yard()))
}

// A `resume`, after a spawn or after a call.
fn resumed(shared: &Shared<'_>, work: &mut Work) -> Turn
    requires due { (parent : ℕ) × IsDue shared.now work.old (kinds.Resume parent) }
    requires more { HasMore shared.now work.old }
    ensures { Turned shared.now work.old.piece work.new result }
{
    match shared.resumed_by(work.piece.upto()) {
        Some(ticket) => taken(shared, work, ticket),
        None => passed(shared, work),
    }
}

// An event that isn't the run's last. Inlined: it is made for each event.
#[inline(always)]
fn made(alloc: Global, shared: &Shared<'_>, work: &mut Work, frame: FrameNo, kind: Kind) -> Turn
    requires due { IsDue shared.now work.old kind }
    requires more { HasMore shared.now work.old }
    requires frame { IsInFrame (event_order_in shared.now).events work.old.piece.upto frame }
    ensures turned { Turned shared.now work.old.piece work.new result }
    ensures spawn { OffersSpawn (event_order_in shared.now) work.old.piece.upto result }
{
    match kind {
        Kind::Begin { .. } => passed(shared, work),
        Kind::Spawn { .. } => spawned(alloc, shared, work),
        Kind::Call { .. } => called(alloc, shared, work),
        Kind::Resume { .. } => resumed(shared, work),
        Kind::Sync => synced(shared, work),
        Kind::End => ended(alloc, shared, work, frame),
        Kind::Read { cell } => loaded(shared, work, cell),
        Kind::Write { cell } => stored(shared, work, cell),
        Kind::Create { instance } => created(alloc, shared, work, instance),
        Kind::Update { instance } => updated(alloc, shared, work, instance),
        Kind::Set { instance } => set(alloc, shared, work, instance),
        Kind::Value { instance } => valued(alloc, shared, work, instance),
        Kind::Print => printed(alloc, shared, work),
    }
}

/// Makes the next event of the run, if the frame requests the event of the plan. Inlined into the
/// loop over a worker's turns, since its result would be returned in memory.
#[inline(always)]
pub fn act(alloc: Global, shared: &Shared<'_>, work: &mut Work) -> Turn
    requires { Works shared.now work.old }
    ensures turned { Turned shared.now work.old.piece work.new result }
    ensures spawn { OffersSpawn (event_order_in shared.now) work.old.piece.upto result }
{
    let at = work.piece.upto();
    shared.laws();
    stands_within(&work.chain);
    let Asked::Next { frame, kind } = shared.next(at) else {
        unreachable!();
    };
    match work.chain.matches_plan(shared.replay(), kind) {
        PlanMatch::Follows if shared.is_last(at) => finished(shared, work, frame),
        PlanMatch::Follows => made(alloc, shared, work, frame, kind),
        PlanMatch::Departs => departed(shared, work),
    }
}

/// Starts a thief, which has an empty piece, with a task. Its piece then begins at the `resume` of
/// the task's spawn. If another worker took the continuation, the piece comes back with the yard's
/// refusal of the task's ticket; so no task is lost otherwise.
pub fn begin(shared: &Shared<'_>, mut piece: Piece, task: Task) -> Result<Work, (Piece, Denied)>
    requires piece { OfRun shared.now.run piece × (piece.upto ≤ piece.from) }
    requires task { task.of ≡ shared.now.replay }
    ensures { MatchResult result (IsThief shared.now task.ticket) (λ r. (r.0 ≡ piece) × (r.1 ≡ task.ticket)) }
{
    shared.laws();
    let ticket = task.ticket();
    let rest = task.rest();
    match piece.take(shared.yard(), ticket) {
        Taken::Yes => {
            piece.segment().has_followed();
            let mut chain = rest.wake(shared.replay());
            chain.answer(shared.replay(), Answer::Done);
            Ok(Work { piece, chain })
        }
        Taken::No(denied) => Err((piece, denied)),
    }
}
