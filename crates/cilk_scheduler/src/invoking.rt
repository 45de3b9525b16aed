//! Child frames before they begin.

ghost use Rattle.std.specs.Prelude.{◌≡◌, ◌<◌, ◌^◌, ◌≤◌, ℕ, Some, length, slice_get, IfOk};
ghost use Rattle.cilk_types.specs.declared.event.Instance.{Instance};
ghost use Rattle.cilk_program.specs.Scopes.{Scope};
ghost use Rattle.cilk_program.specs.declared.ask.Callee.TheVariants as callees;
ghost use Rattle.cilk_frames.specs.Sight.{AreSmall, ResultFits};
ghost use Rattle.cilk_frames.specs.declared.activation.Activation.{Activation};
ghost use Rattle.cilk_scheduler.specs.declared.frame_state.FrameState.{FrameState};
ghost use Rattle.cilk_scheduler.specs.Events.{SeesAt};
ghost use Rattle.cilk_scheduler.specs.Invoking.{IsChild};

use crate::frame_state::FrameState;
use cilk_frames::activation::Activation;
use cilk_frames::beginnings::{function, turns};
use cilk_frames::cursor::Cursor;
use cilk_frames::operands::Operands;
use cilk_lower::code::Code;
use cilk_program::ask::{FunctionCall, LoopPart};
use cilk_types::event::Cell;
use cilk_types::invocation::Invocation;
use std::alloc::{AllocError, Global};

/// The start of a frame: the index of its parent, the worker that holds the parent, and the number
/// of the new frame's first cell.
#[derive(Clone, Copy)]
pub struct Starter {
    pub frame: u32,
    pub worker: u32,
    pub base: Cell,
}

/// Returns the frame of a called or spawned function, in the operands of a frame that has ended. It
/// isn't in the list of frames yet.
pub fn function_child(
    alloc: Global,
    operands: Operands,
    code: &Code,
    frames: &[Activation<FrameState>],
    starter: Starter,
    how: Invocation,
    call: &FunctionCall,
) -> Result<Activation<FrameState>, AllocError>
    requires here { starter.frame < length frames.now }
    requires few { length frames.now < 65536 }
    requires children { (top : Activation FrameState) → slice_get frames.now starter.frame ≡ Some top → top.cursor.children < 2 ^ 31 }
    requires sees { (scope : Scope ℕ Instance) × SeesAt frames.now starter.frame scope × AreSmall call.now.reducers × ResultFits scope call.now.result }
    ensures { IfOk result (λ a. IsChild code.now frames.now starter.frame starter.worker starter.base how (callees.Function call.now) a) }
{
    let here = starter.frame as usize;
    let top = &frames[here];
    let number = frames.len() as u32 + 1;
    let cursor = Cursor::function_in::<true>(alloc, operands, code, call)?;
    let ordinal = top.cursor.children + 1;
    let frame_state = FrameState::new(starter.frame, ordinal, how, starter.worker, cursor);
    function(alloc, frame_state, number, starter.base, frames, top, call)
}

/// Returns the frame of some turns of a loop, in the operands of a frame that has ended. It isn't in
/// the list of frames yet.
pub fn turns_child(
    alloc: Global,
    operands: Operands,
    code: &Code,
    frames: &[Activation<FrameState>],
    starter: Starter,
    how: Invocation,
    part: &LoopPart,
) -> Result<Activation<FrameState>, AllocError>
    requires here { starter.frame < length frames.now }
    requires few { length frames.now < 65536 }
    requires children { (top : Activation FrameState) → slice_get frames.now starter.frame ≡ Some top → top.cursor.children < 2 ^ 31 }
    requires up { part.now.up ≤ 1 }
    ensures { IfOk result (λ a. IsChild code.now frames.now starter.frame starter.worker starter.base how (callees.Loop part.now) a) }
{
    let here = starter.frame as usize;
    let top = &frames[here];
    let number = frames.len() as u32 + 1;
    let cursor = Cursor::turns_in::<true>(alloc, operands, code, part)?;
    let ordinal = top.cursor.children + 1;
    let frame_state = FrameState::new(starter.frame, ordinal, how, starter.worker, cursor);
    let child = turns(alloc, frame_state, number, starter.base, here, top, part);
    Ok(child)
}
