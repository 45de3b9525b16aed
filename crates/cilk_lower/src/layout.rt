//! Data of a program for its runs, apart from instructions: opening values, and the contents of
//! frames.

ghost use Rattle.std.specs.Prelude.{◌≡◌, pos, ◌-ℤ◌, map, slice_get, unwrap_or, IfOk};
ghost use Rattle.std.specs.Ordering.{int_eq};
ghost use Rattle.cilk_lower.specs.Layout.{LaysOut, cells_in, frame_of, function_frame};
ghost use Rattle.cilk_program.specs.Programs.{function};
ghost use Rattle.cilk_program.specs.Sources.{source};
ghost use Rattle.cilk_program.specs.declared.ask.Callee.TheVariants as callees;

use crate::plain::is_plain;
use cilk_monoid::kind::MonoidKind;
use cilk_program::ask::{Callee, LoopPart};
use cilk_program::program::{Body, Function, GlobalReducer, Loop, Program};
use cilk_types::event::Cell;
use cilk_types::sequence::Sequence;
use std::alloc::{AllocError, Global};

/// The frame of a function: the number of its cells, and the monoids of the reducers that it
/// declares, in order.
#[derive(Drop)]
pub struct FunctionLayout {
    pub cells: u32,
    pub reducers: Sequence<MonoidKind>,
}

/// A frame of a known run: its body, the number of its first cell, and how many cells it has. The
/// cells have consecutive numbers.
#[derive(Clone, Copy)]
pub struct PlannedFrame {
    pub body: Body,
    pub first_cell: Cell,
    pub cells: u32,
}

/// The layout of a program. `openings` has the opening values of the global cells, and `loops` the
/// number of cells of one turn's frame for each loop. `plain` means that the program has neither a
/// reducer nor a `print`.
pub struct Layout {
    pub openings: Sequence<i64>,
    pub reducers: Sequence<MonoidKind>,
    pub main: u32,
    pub functions: Sequence<FunctionLayout>,
    pub loops: Sequence<u32>,
    pub plain: bool,
}

// A separate function, so that a proof follows one call where a layout is dropped.
impl Drop for Layout {
    fn drop(self) {
        let Layout {
            openings: _openings,
            reducers: _reducers,
            main: _,
            functions: _functions,
            loops: _loops,
            plain: _,
        } = self;
    }
}

impl Layout {
    /// Returns the number of cells of a callee's frame.
    pub fn cells(&self, callee: &Callee) -> u32
        ensures { result ≡ cells_in self.now callee.now }
    {
        match callee {
            Callee::Root => self.function_cells(self.main),
            Callee::Function(call) => self.function_cells(call.function),
            Callee::Loop(part) => self.part_cells(part),
        }
    }

    /// Returns the number of cells of a function's frame.
    pub fn function_cells(&self, number: u32) -> u32
        ensures { let f = function_frame self.now number in result ≡ f.cells }
    {
        match self.functions.as_slice().get(number as usize) {
            Some(frame) => frame.cells,
            None => 0,
        }
    }

    /// Returns the number of cells of a frame of a loop's turns, which is 0 if it has several.
    pub fn part_cells(&self, part: &LoopPart) -> u32
        ensures { result ≡ cells_in self.now (callees.Loop part.now) }
    {
        if has_one(*part) {
            self.turn_cells(part.number)
        } else {
            0
        }
    }

    fn turn_cells(&self, number: u32) -> u32
        ensures { result ≡ unwrap_or (slice_get self.now.loops number) 0 }
    {
        match self.loops.as_slice().get(number as usize) {
            Some(cells) => *cells,
            None => 0,
        }
    }

    /// Returns the monoids of the reducers that a function's frame creates, and retires when it
    /// ends.
    pub fn function_reducers(&self, number: u32) -> &[MonoidKind]
        ensures { let f = function_frame self.now number in result.now ≡ f.reducers }
    {
        match self.functions.as_slice().get(number as usize) {
            Some(frame) => frame.reducers.as_slice(),
            None => &[],
        }
    }
}

/// Returns whether a part of a loop is a single turn.
pub fn has_one(part: LoopPart) -> bool
    ensures { result ≡ int_eq (part.high -ℤ part.low) (pos 1) }
{
    is_single(part.low, part.high)
}

/// Returns whether turns from `low` up to `high` are a single one. The distance of the bounds may
/// exceed a word. Not inlined, since its arithmetic would be done at each entry of the loop over a
/// frame's instructions.
#[inline(never)]
pub fn is_single(low: i64, high: i64) -> bool
    ensures { result ≡ int_eq (high -ℤ low) (pos 1) }
{
    i128::from(high) - i128::from(low) == 1
}

/// Makes the layout of a program. The only error is out of memory. The time is linear in the
/// program.
pub fn lay_out(alloc: Global, program: &Program) -> Result<Layout, AllocError>
    ensures { IfOk result (λ layout. LaysOut (source program.now) layout) }
{
    Ok(Layout {
        openings: Sequence::new(Vec::from_slice(alloc, program.globals.as_slice())?),
        reducers: global_kinds(alloc, &program.reducers)?,
        main: program.main,
        functions: function_frames(alloc, &program.functions)?,
        loops: loop_cells(alloc, &program.loops)?,
        plain: is_plain(program),
    })
}

/// Returns the monoids of global reducers, in order.
pub fn global_kinds(
    alloc: Global,
    reducers: &[GlobalReducer],
) -> Result<Sequence<MonoidKind>, AllocError>
    ensures { IfOk result (λ list. list ≡ map (λ r. r.kind) reducers.now) }
{
    let mut kinds = Vec::new(alloc);
    'each: for reducer in reducers {
        kinds.push(reducer.kind)?;
    }
    Ok(Sequence::new(kinds))
}

fn function_frames(
    alloc: Global,
    functions: &[Function],
) -> Result<Sequence<FunctionLayout>, AllocError>
    ensures { IfOk result (λ list. list ≡ map (λ f. frame_of (function f)) functions.now) }
{
    let mut frames = Vec::new(alloc);
    'each: for f in functions {
        frames.push(frame_of(alloc, f)?)?;
    }
    Ok(Sequence::new(frames))
}

fn frame_of(alloc: Global, f: &Function) -> Result<FunctionLayout, AllocError>
    ensures { IfOk result (λ frame. frame ≡ frame_of (function f.now)) }
{
    Ok(FunctionLayout {
        cells: f.cells,
        reducers: Sequence::new(Vec::from_slice(alloc, f.reducers.as_slice())?),
    })
}

fn loop_cells(alloc: Global, loops: &[Loop]) -> Result<Sequence<u32>, AllocError>
    ensures { IfOk result (λ list. list ≡ map (λ l. l.cells) loops.now) }
{
    let mut cells = Vec::new(alloc);
    'each: for l in loops {
        cells.push(l.cells)?;
    }
    Ok(Sequence::new(cells))
}
