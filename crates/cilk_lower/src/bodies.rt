//! Emits the bodies of all functions and loops, one after the other.

ghost use Rattle.std.specs.Prelude.{◌≡◌, ◌≤◌, map, ◌++◌, length, IfOk, OnOk, Some, slice_get};
ghost use Rattle.cilk_lower.specs.Bodies.{EachAt, EachFits, FunctionAt, FunctionFits, Grows, IsSound, LoopAt, LoopFits};
ghost use Rattle.cilk_lower.specs.Code.{creates_code, words_code};
ghost use Rattle.cilk_program.specs.declared.program.Function.{Function};
ghost use Rattle.cilk_program.specs.declared.syntax.ReducerPlace.{ReducerPlace};

use crate::code::{EntryPoint, Instr};
use crate::emitter::Emitter;
use crate::put::{Listing, put, put_create};
use cilk_monoid::kind::MonoidKind;
use cilk_program::program::{Function, GlobalReducer, Loop};
use cilk_program::syntax::ReducerPlace;
use std::alloc::{AllocError, Global};

/// Emits the functions in order, and returns their entry points. The code has the main function
/// already, at `entry`.
pub fn emit_functions(
    alloc: Global,
    out: &mut Emitter,
    functions: &[Function],
    main: usize,
    entry: EntryPoint,
) -> Result<Vec<EntryPoint>, AllocError>
    requires sound { IsSound out.old.instrs.items out.old.sites.items }
    requires fit { EachFits FunctionFits functions.now }
    requires main { (f : Function) → slice_get functions.now main ≡ Some f → FunctionAt out.old.instrs.items out.old.sites.items entry f }
    ensures sound { OnOk result (IsSound out.new.instrs.items out.new.sites.items) }
    ensures grows { OnOk result (Grows out.old.instrs.items out.old.sites.items out.new.instrs.items out.new.sites.items) }
    ensures entries { IfOk result (λ es. EachAt (FunctionAt out.new.instrs.items out.new.sites.items) es.items functions.now) }
{
    let mut entries = Vec::new(alloc);
    'each: for number in 0..functions.len() {
        let function = &functions[number];
        let place = if number == main {
            entry
        } else {
            out.emit_function(function)?
        };
        entries.push(place)?;
    }
    Ok(entries)
}

/// Emits the bodies of the loops in order, and returns their entry points.
pub fn emit_loops(
    alloc: Global,
    out: &mut Emitter,
    loops: &[Loop],
) -> Result<Vec<EntryPoint>, AllocError>
    requires sound { IsSound out.old.instrs.items out.old.sites.items }
    requires fit { EachFits LoopFits loops.now }
    ensures sound { OnOk result (IsSound out.new.instrs.items out.new.sites.items) }
    ensures grows { OnOk result (Grows out.old.instrs.items out.old.sites.items out.new.instrs.items out.new.sites.items) }
    ensures entries { IfOk result (λ es. EachAt (LoopAt out.new.instrs.items out.new.sites.items) es.items loops.now) }
{
    let mut entries = Vec::new(alloc);
    'each: for l in loops {
        let place = out.emit_loop(l)?;
        entries.push(place)?;
    }
    Ok(entries)
}

/// Appends the instructions that create the global reducers.
pub fn put_globals(code: &mut Listing, reducers: &[GlobalReducer]) -> Result<(), AllocError>
    requires { length reducers.now ≤ 64 }
    ensures { OnOk result (code.new.items ≡ code.old.items ++ creates_code ReducerPlace.Global 0 (map (λ r. r.kind) reducers.now)) }
{
    'each: for n in 0..reducers.len() {
        let reducer = &reducers[n];
        put_create(code, 0, ReducerPlace::Global(n as u32), reducer.kind)?;
    }
    Ok(())
}

/// Appends the instructions that write a frame's words to its first cells.
pub fn put_words(code: &mut Listing, at: usize, count: u32) -> Result<(), AllocError>
    ensures { OnOk result (code.new.items ≡ code.old.items ++ words_code 0 count) }
{
    'each: for n in 0..count {
        put(code, at, Instr::Word(n))?;
    }
    Ok(())
}

/// Appends the instructions that create a frame's own reducers.
pub fn put_own(code: &mut Listing, at: usize, kinds: &[MonoidKind]) -> Result<(), AllocError>
    requires { length kinds.now ≤ 64 }
    ensures { OnOk result (code.new.items ≡ code.old.items ++ creates_code (ReducerPlace.Own 0) 0 kinds.now) }
{
    'each: for n in 0..kinds.len() {
        put_create(code, at, ReducerPlace::Own(0, n as u32), kinds[n])?;
    }
    Ok(())
}
