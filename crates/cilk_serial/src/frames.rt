// Frames that begin or end.

ghost use Rattle.std.specs.Prelude.{◌≡◌, ◌<◌, ◌≤◌, [], List, ℤ, length, IfOk};
ghost use Rattle.cilk_monoid.specs.Ranges.{same_instance};
ghost use Rattle.cilk_program.specs.declared.ask.Ask.TheVariants.{Begin};
ghost use Rattle.cilk_program.specs.declared.ask.Callee.TheVariants as callees;
ghost use Rattle.cilk_program.specs.Store.{clear_all};
ghost use Rattle.cilk_types.specs.declared.limits.TheConstants.{MAX_CELLS, MAX_FRAMES};
ghost use Rattle.cilk_program.specs.Sources.{source};
ghost use Rattle.cilk_program.specs.Syntax.{Source};
ghost use Rattle.cilk_program.specs.SerialRun.{Frame, Memory, root_frame};
ghost use Rattle.cilk_lower.specs.Behaves.{Behaves};
ghost use Rattle.cilk_frames.specs.Following.{Stands, owed_for};
ghost use Rattle.cilk_serial.specs.Children.{IsChild};
ghost use Rattle.cilk_serial.specs.Scoped.{IsCreator, MayBegin, Parent, Scoped, Seen, kinds_of, own_of};
ghost use Rattle.cilk_serial.specs.States.{Shows};

use crate::state::State;
use cilk_frames::activation::Activation;
use cilk_frames::beginnings;
use cilk_frames::call_stack::CallStack;
use cilk_frames::cursor::Cursor;
use cilk_frames::operands::Operands;
use cilk_lower::code::Code;
use cilk_monoid::kind::MonoidKind;
use cilk_program::ask::{FunctionCall, LoopPart};
use cilk_program::program::Program;
use cilk_types::event::{Cell, Instance};
use std::alloc::{AllocError, Global};

/// Returns the root's frame before it begins.
pub fn root(alloc: Global, program: &Program, code: &Code) -> Result<Activation<Cursor>, AllocError>
    ensures stands { IfOk result (λ a. (inputs : List ℤ) → Behaves (source program.now) code.now → Stands code.now inputs (source program.now) callees.Root a.cursor [] 0) }
    ensures owes { IfOk result (λ a. a.cursor.owed ≡ owed_for Begin) }
    ensures scoped { IfOk result (λ a. (inputs : List ℤ) → Scoped (source program.now) a (root_frame (source program.now) inputs) []) }
{
    let globals = program.globals.len();
    let reducers = program.reducers.len();
    few(program);
    let cursor = Cursor::root(alloc, code)?;
    Ok(beginnings::root(
        alloc,
        cursor,
        globals as Cell,
        reducers as u32,
        program.main,
    ))
}

/// Returns the frame of a function that the running frame invokes, before it begins. `operands` are
/// those of a frame that has ended.
pub fn function(
    alloc: Global,
    operands: Operands,
    code: &Code,
    state: &State,
    frames: &CallStack<Cursor>,
    call: &FunctionCall,
) -> Result<Activation<Cursor>, AllocError>
    requires may { (p : Source) × (fr : Frame) × (parents : List Parent) × Seen p frames.now fr parents × MayBegin p fr (length state.now.cells.items) (callees.Function call.now) }
    requires frames { state.now.frames < MAX_FRAMES }
    requires cells { length state.now.cells.items ≤ MAX_CELLS }
    ensures { IfOk result (λ a. IsChild code.now state.now frames.now (callees.Function call.now) a) }
{
    let cursor = Cursor::function_in::<true>(alloc, operands, code, call)?;
    let number = state.frames + 1;
    let base = state.cells.len() as Cell;
    let frame = beginnings::function(
        alloc,
        cursor,
        number,
        base,
        frames.below.as_slice(),
        &frames.top,
        call,
    )?;
    Ok(frame)
}

/// Returns the frame of some turns of a loop that the running frame invokes, before it begins.
/// `operands` are those of a frame that has ended.
pub fn turns(
    alloc: Global,
    operands: Operands,
    code: &Code,
    state: &State,
    frames: &CallStack<Cursor>,
    part: &LoopPart,
) -> Result<Activation<Cursor>, AllocError>
    requires up { part.now.up ≤ 1 }
    requires frames { state.now.frames < MAX_FRAMES }
    requires cells { length state.now.cells.items ≤ MAX_CELLS }
    ensures { IfOk result (λ a. IsChild code.now state.now frames.now (callees.Loop part.now) a) }
{
    let cursor = Cursor::turns_in::<true>(alloc, operands, code, part)?;
    let number = state.frames + 1;
    let base = state.cells.len() as Cell;
    let here = frames.depth();
    let frame = beginnings::turns(alloc, cursor, number, base, here, &frames.top, part);
    Ok(frame)
}

/// Retires the reducers of a frame that ends.
pub fn retire<C>(program: &Program, state: &mut State, top: &Activation<C>)
    requires there { IsCreator (source program.now) top.now.creator }
    requires low { top.now.first < 65536 }
    ensures events { state.new.events.items ≡ state.old.events.items }
    ensures shows { (m : Memory) → Shows state.old m → Shows state.new (record { store = clear_all same_instance (own_of top.now) 0 (kinds_of (source program.now) top.now.creator) m.store; frames = m.frames; cells = m.cells; room = m.room }) }
{
    let Some(function) = top.creator else { return };
    retire_all(
        state,
        top,
        program.functions[function as usize].reducers.as_slice(),
    )
}

// Retires the reducers with these monoids, from a frame's first own one on.
fn retire_all<C>(state: &mut State, top: &Activation<C>, kinds: &[MonoidKind])
    requires few { length kinds.now ≤ 64 }
    requires low { top.now.first < 65536 }
    ensures events { state.new.events.items ≡ state.old.events.items }
    ensures shows { (m : Memory) → Shows state.old m → Shows state.new (record { store = clear_all same_instance (own_of top.now) 0 kinds.now m.store; frames = m.frames; cells = m.cells; room = m.room }) }
{
    'each: for number in 0..kinds.len() {
        let instance = Instance {
            frame: top.number,
            place: top.first + number as u32,
        };
        state.retire(instance, kinds[number]);
    }
}

// For the proof only: a program has few globals and few global reducers.
fn few(program: &Program)
    ensures globals { length program.now.globals ≤ 1000000 }
    ensures reducers { length program.now.reducers.items ≤ 64 }
{}
