//! One frame of a chain.

ghost use Rattle.std.specs.Prelude.{◌≡◌, ◌≢◌, ◌≤◌, ◌∷◌, ◌++◌, [], ℤ, List, IfOk, length};
ghost use Rattle.cilk_types.specs.declared.limits.TheConstants.{MAX_TICKS};
ghost use Rattle.cilk_types.specs.declared.invocation.Invocation.{Invocation};
ghost use Rattle.cilk_program.specs.declared.ask.Ask.TheVariants as asks;
ghost use Rattle.cilk_program.specs.declared.ask.Callee.{Callee};
ghost use Rattle.cilk_program.specs.declared.ask.Callee.TheVariants.{Root};
ghost use Rattle.cilk_program.specs.Inside.{CalleeIsFit};
ghost use Rattle.cilk_program.specs.Sources.{source};
ghost use Rattle.cilk_program.specs.Syntax.{Source};
ghost use Rattle.cilk_lower.specs.Behaves.{Behaves};
ghost use Rattle.cilk_frames.specs.Following.{Fits, Runs, Stands, owed_for, word_in};
ghost use Rattle.cilk_replay.specs.Asking.{HasAsked};
ghost use Rattle.cilk_replay.specs.Sights.{found_global, layouts_of};

use crate::frame_layout::FrameLayout;
use crate::replay::Replay;
use crate::sight::Sight;
use cilk_frames::asked::AskSlot;
use cilk_frames::cursor::{Answer, Cursor};
use cilk_frames::operands::Operands;
use cilk_frames::small_ask::SmallAsk;
use cilk_frames::stepping::step_into;
use cilk_types::limits::MAX_TICKS;
use std::alloc::{AllocError, Global};

/// A frame: its cursor in the code, its used ticks, and the cells and reducers in its sight. It may
/// use all the ticks of a run for itself.
#[derive(Drop)]
pub struct ReplayFrame {
    pub cursor: Cursor,
    pub took: u32,
    pub sight: Sight,
}

impl ReplayFrame {
    ghost use Rattle.cilk_replay.specs.Asking.{HasAsked};
    ghost use Rattle.cilk_replay.specs.Replays.{IsSightIn};

    /// Creates the root's frame, before it begins.
    pub fn root(
        alloc: Global,
        replay: &Replay,
        layout: FrameLayout,
    ) -> Result<ReplayFrame, AllocError>
        ensures stands { IfOk result (λ l. (p : Source) → Behaves p replay.now.code
            → Stands replay.now.code replay.now.inputs p Root l.cursor [] 0) }
        ensures owes { IfOk result (λ l. l.cursor.owed ≡ owed_for asks.Begin) }
        ensures took { IfOk result (λ l. l.took ≡ 0) }
        ensures layouts { IfOk result (λ l. layouts_of l.sight ≡ layout ∷ []) }
        ensures given { IfOk result (λ l. l.sight.given.items ≡ []) }
        ensures result { let p = source replay.now.program in IfOk result (λ l. l.sight.result ≡ found_global (length p.openings) 0) }
    {
        let cursor = Cursor::root(alloc, replay.code())?;
        let sight = Sight::root(alloc, replay.globals(), layout);
        let replay_frame = ReplayFrame {
            cursor,
            took: 0,
            sight,
        };
        Ok(replay_frame)
    }

    /// Creates the child that a frame requests, before it begins. `operands` are those of a frame
    /// that has ended, `layout` is the child's, and `caller` is the requesting frame's sight.
    pub fn begun(
        alloc: Global,
        operands: Operands,
        replay: &Replay,
        asked: &AskSlot,
        layout: FrameLayout,
        caller: &Sight,
    ) -> Result<ReplayFrame, AllocError>
        requires { (how : Invocation) × (callee : Callee) × (callee ≢ Root) × (asked.now ≡ asks.Invoke how callee) }
        ensures stands { IfOk result (λ l. (p : Source) (how : Invocation) (callee : Callee)
            → asked.now ≡ asks.Invoke how callee → Behaves p replay.now.code → CalleeIsFit p callee
            → Stands replay.now.code replay.now.inputs p callee l.cursor [] 0) }
        ensures owes { IfOk result (λ l. l.cursor.owed ≡ owed_for asks.Begin) }
        ensures took { IfOk result (λ l. l.took ≡ 0) }
        ensures sight { IfOk result (λ l. (how : Invocation) (callee : Callee) → asked.now ≡ asks.Invoke how callee
            → IsSightIn replay.now callee layout caller.now l.sight) }
    {
        let code = replay.code();
        let cursor = match asked.small_ask() {
            None => Cursor::function_in::<false>(alloc, operands, code, asked.invocation().1)?,
            Some(SmallAsk::Turns(_, part)) => Cursor::turns_in::<false>(
                alloc, operands, code, part,
            )?,
            Some(_) => unreachable!(),
        };
        let sight = Sight::begun(alloc, replay.globals(), layout, caller, asked)?;
        Ok(ReplayFrame {
            cursor,
            took: 0,
            sight,
        })
    }

    /// Continues the frame with the answer to its last request, up to its next request.
    pub fn step(&mut self, replay: &Replay, answer: Answer, asked: &mut AskSlot)
        requires runs { Runs replay.now.code replay.now.inputs self.old.cursor }
        requires fits { Fits self.old.cursor.owed answer }
        requires small { self.old.took ≤ MAX_TICKS }
        ensures sight { self.new.sight ≡ self.old.sight }
        ensures asks { (p : Source) (callee : Callee) (history : List ℤ)
            → Stands replay.now.code replay.now.inputs p callee self.old.cursor history self.old.took
            → HasAsked replay.now.code replay.now.inputs p callee (history ++ word_in answer ∷ []) asked.new self.new }
    {
        let mut left = MAX_TICKS - self.took;
        step_into(
            replay.code(),
            replay.input(),
            &mut self.cursor,
            answer,
            &mut left,
            asked,
        );
        self.took = MAX_TICKS - left;
    }
}

/// Continues a frame on the heap with the answer to its last request, up to its next request.
pub(crate) fn go_on(
    frame: &mut Box<ReplayFrame>,
    replay: &Replay,
    answer: Answer,
    asked: &mut AskSlot,
)
    requires runs { let l = frame.old.value in Runs replay.now.code replay.now.inputs l.cursor }
    requires fits { let l = frame.old.value in Fits l.cursor.owed answer }
    requires small { let l = frame.old.value in l.took ≤ MAX_TICKS }
    ensures sight { let l = frame.new.value in let o = frame.old.value in l.sight ≡ o.sight }
    ensures asks { (p : Source) (callee : Callee) (history : List ℤ)
        → (let o = frame.old.value in Stands replay.now.code replay.now.inputs p callee o.cursor history o.took)
        → HasAsked replay.now.code replay.now.inputs p callee (history ++ word_in answer ∷ []) asked.new frame.new.value }
{
    frame.step(replay, answer, asked);
}
