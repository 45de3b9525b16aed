//! Replays frames in rounds, one for each depth of invocation.

ghost use Rattle.std.specs.Prelude.{◌≡◌, ◌<◌, ◌≤◌, ℤ, List, All, IfOk, vec_len};
ghost use Rattle.cilk_program.specs.Sources.{source};
ghost use Rattle.cilk_program.specs.Syntax.{Source};
ghost use Rattle.cilk_lower.specs.Behaves.{Behaves};
ghost use Rattle.cilk_lower.specs.Code.{CodeView};
ghost use Rattle.cilk_helpers.specs.Whole.{IsKept};
ghost use Rattle.cilk_helpers.specs.Replayed.{AreFitting, AreReplayed, AreNumbered, IsFitting, IsOwn, IsReplayed};

use crate::called::SmallCallee;
use crate::listing::{FrameHint, Hints, place_of};
use crate::replayed::{Due, Replayed};
use crate::rounds::{Share, round};
use crate::watch::Watch;
use crate::whole::Replay;
use cilk_lower::code::Code;
use cilk_program::program::Program;
use cilk_types::event::FrameNo;
use cilk_types::input::Input;
use cilk_types::limits::MAX_TICKS;
use std::alloc::{AllocError, Global};
use std::thread::Threads;

// The replays before any frame is replayed.
fn blanks(alloc: Global, count: usize) -> Result<Vec<Replay>, AllocError>
    ensures { (code : CodeView) (p : Source) (inputs : List ℤ) → IfOk result (λ list. All (IsKept code p inputs) list.items) }
{
    let mut list = Vec::with_capacity(alloc, count)?;
    'each: for _ in 0..count {
        list.push(Replay {
            callee: SmallCallee::nothing(),
            notes: Vec::new(alloc),
        })?;
    }
    Ok(list)
}

// The hint of a frame. A frame that isn't listed has no event.
fn hint_of(hints: &Hints, frame: FrameNo) -> FrameHint {
    match hints.frames.get(place_of(frame)) {
        Some(hint) => *hint,
        None => FrameHint::EMPTY,
    }
}

// Adds a frame with this callee to those that are due, if the program has the callee.
fn add(
    program: &Program,
    hints: &Hints,
    frame: FrameNo,
    callee: SmallCallee,
    dues: &mut Vec<Due>,
) -> Result<(), AllocError>
    ensures { All (IsFitting (source program.now)) dues.old.items → All (IsFitting (source program.now)) dues.new.items }
{
    if callee.fits(program) {
        dues.push(Due {
            frame,
            callee,
            hint: hint_of(hints, frame),
        })?;
    }
    Ok(())
}

// Adds the listed children of a frame. Their callees are those of its replay, in the same order.
fn add_children(
    alloc: Global,
    program: &Program,
    hints: &Hints,
    frame: FrameNo,
    replay: &Replay,
    dues: &mut Vec<Due>,
) -> Result<(), AllocError>
    ensures { All (IsFitting (source program.now)) dues.old.items → All (IsFitting (source program.now)) dues.new.items }
{
    let mut listed = hint_of(hints, frame).child;
    'notes: for note in replay.notes.iter().rev() {
        if let Some(callee) = note.child(alloc)? {
            let Some(child) = listed else { break };
            listed = hint_of(hints, child).sibling;
            add(program, hints, child, callee, dues)?;
        }
    }
    Ok(())
}

// The frame of the first round, if any frame is listed.
fn first(alloc: Global, program: &Program, hints: &Hints) -> Result<Vec<Due>, AllocError>
    ensures { IfOk result (λ dues. All (IsFitting (source program.now)) dues.items) }
{
    let mut dues = Vec::new(alloc);
    if !hints.frames.is_empty() {
        add(program, hints, 1, SmallCallee::root(), &mut dues)?;
    }
    Ok(dues)
}

// The frames of the next round, the least first: the children of those just replayed.
fn following(
    alloc: Global,
    program: &Program,
    hints: &Hints,
    frames: &[FrameNo],
    replays: &[Replay],
) -> Result<Vec<Due>, AllocError>
    ensures { IfOk result (λ dues. All (IsFitting (source program.now)) dues.items) }
{
    let mut dues = Vec::new(alloc);
    'frames: for frame in frames {
        let Some(replay) = replays.get(place_of(*frame)) else {
            break;
        };
        add_children(alloc, program, hints, *frame, replay, &mut dues)?;
    }
    Ok(dues)
}

fn numbers(alloc: Global, dues: &[Due]) -> Result<Vec<FrameNo>, AllocError> {
    let mut list = Vec::with_capacity(alloc, dues.len())?;
    'each: for due in dues {
        list.push(due.frame)?;
    }
    Ok(list)
}

// An empty share for each helper.
fn empty(alloc: Global, helpers: u32, spent: u32) -> Result<Vec<Share>, AllocError>
    requires { helpers ≤ 16 }
    ensures count { IfOk result (λ shares. vec_len shares ≡ helpers) }
    ensures numbers { IfOk result (λ shares. AreNumbered shares.items) }
    ensures none { IfOk result (λ shares. All (IsOwn helpers) shares.items) }
    ensures fits { (p : Source) → IfOk result (λ shares. All (AreFitting p) shares.items) }
{
    let mut shares = Vec::with_capacity(alloc, helpers as usize)?;
    'each: for place in 0..helpers {
        shares.push(Share {
            helper: place + 1,
            frames: Vec::new(alloc),
            spent,
        })?;
    }
    Ok(shares)
}

// Deals the frames of a round, the least first, to the helpers, which take turns by the frames'
// numbers. A helper without frames has no share.
fn dealt(alloc: Global, dues: Vec<Due>, helpers: u32, spent: u32) -> Result<Vec<Share>, AllocError>
    requires some { 0 < helpers }
    requires most { helpers ≤ 16 }
    ensures fits { (p : Source) → All (IsFitting p) dues.items → IfOk result (λ shares. All (AreFitting p) shares.items) }
    ensures own { IfOk result (λ shares. All (IsOwn helpers) shares.items) }
{
    let mut shares = empty(alloc, helpers, spent)?;
    let mut dues = dues;
    'dues: for _ in 0..dues.len() {
        let Some(due) = dues.pop() else { break };
        let place = place_of(due.frame) % shares.len();
        shares[place].frames.push(due)?;
    }
    shares.retain(|share| !share.frames.is_empty());
    Ok(shares)
}

// How many ticks the frames of a round cost.
fn ticks_of(round: &[Result<Vec<Replayed>, AllocError>]) -> u32 {
    let mut ticks: u32 = 0;
    for share in round {
        if let Ok(list) = share {
            for replayed in list.as_slice() {
                ticks = ticks.saturating_add(replayed.ticks);
            }
        }
    }
    ticks
}

fn put(replays: &mut [Replay], replayed: Replayed)
    ensures { (code : CodeView) (p : Source) (inputs : List ℤ) → All (IsKept code p inputs) replays.old → IsReplayed code p inputs replayed → All (IsKept code p inputs) replays.new }
{
    let Replayed { frame, replay, .. } = replayed;
    let place = place_of(frame);
    if place < replays.len() {
        replays[place] = replay;
    }
}

fn keep_share(replays: &mut [Replay], share: Vec<Replayed>)
    ensures { (code : CodeView) (p : Source) (inputs : List ℤ) → All (IsKept code p inputs) replays.old → All (IsReplayed code p inputs) share.items → All (IsKept code p inputs) replays.new }
{
    let mut share = share;
    'each: for _ in 0..share.len() {
        let Some(replayed) = share.pop() else { break };
        put(replays, replayed);
    }
}

// Keeps the replays of a round, each at its frame's place.
fn keep(
    replays: &mut [Replay],
    round: Vec<Result<Vec<Replayed>, AllocError>>,
) -> Result<(), AllocError>
    ensures { (code : CodeView) (p : Source) (inputs : List ℤ) → All (IsKept code p inputs) replays.old → All (AreReplayed code p inputs) round.items → All (IsKept code p inputs) replays.new }
{
    let mut round = round;
    'each: for _ in 0..round.len() {
        let Some(share) = round.pop() else { break };
        keep_share(replays, share?);
    }
    Ok(())
}

/// The threads, the number of helpers, and what is called for each frame as a helper begins it.
#[derive(Clone, Copy)]
pub struct Team<'a, R, W> {
    pub rt: &'a R,
    pub helpers: u32,
    pub watch: &'a W,
}

/// Replays all listed frames and returns their replays, the last frame first.
///
/// A round has all frames of one depth of invocation. Frame K belongs to helper 1 + (K - 1) %
/// helpers, which replays its frames in ascending order. A frame that no replay invokes has an
/// empty replay. No frame begins once the replayed ones cost more ticks than a run may. So whatever
/// the hints say, a helper makes at most the ticks of three runs: `replay_share` bounds a round's share,
/// and no clause says it of all rounds.
pub fn replays<R: Threads + Sync, W: Watch + Sync>(
    team: Team<'_, R, W>,
    alloc: Global,
    program: &Program,
    code: &Code,
    input: &Input,
    hints: &Hints,
) -> Result<Vec<Replay>, AllocError>
    requires behaves { Behaves (source program.now) code.now }
    requires some { 0 < team.helpers }
    requires most { team.helpers ≤ 16 }
    ensures { IfOk result (λ list. All (IsKept code.now (source program.now) input.now) list.items) }
{
    let mut replays = blanks(alloc, hints.frames.len())?;
    let mut dues = first(alloc, program, hints)?;
    let mut spent: u32 = 0;
    'rounds: for _ in 0..hints.frames.len() {
        if dues.is_empty() || spent > MAX_TICKS {
            break;
        }
        let frames = numbers(alloc, dues.as_slice())?;
        let shares = dealt(alloc, dues, team.helpers, spent)?;
        let replayed = round(
            team.rt,
            alloc,
            code,
            input,
            hints.words.as_slice(),
            shares,
            team.watch,
        )?;
        spent = spent.saturating_add(ticks_of(replayed.as_slice()));
        keep(&mut replays, replayed)?;
        dues = following(alloc, program, hints, frames.as_slice(), replays.as_slice())?;
    }
    replays.reverse();
    Ok(replays)
}
