//! The bodies and the cells of the frames of a serial run.

ghost use Rattle.std.specs.Prelude.{◌≡◌, ◌+◌, ◌<◌, ◌^◌, ◌∷◌, ◌++◌, [], IfOk, OnOk};
ghost use Rattle.cilk_program.specs.Inside.{body_of};
ghost use Rattle.cilk_program.specs.Sources.{source};
ghost use Rattle.cilk_program.specs.Syntax.{Source};
ghost use Rattle.cilk_checker.specs.Frames.{BeginsOwn, FramesStandAtTheirNumbers, own_by, own_of};

use cilk_lower::layout::{Layout, PlannedFrame};
use cilk_program::ask::Callee;
use cilk_program::program::{Body, Program};
use cilk_serial::serial_run::{SerialRun, Target};
use cilk_types::event::Cell;
use std::alloc::AllocError;

/// The body of a frame, and how many cells it has.
#[derive(Clone, Copy)]
pub struct Own {
    pub body: Body,
    pub cells: u32,
}

/// Returns the body of a callee's frame, and how many cells it has.
pub fn of_callee(program: &Program, layout: &Layout, callee: &Callee) -> Own
    ensures { result ≡ own_of (source program.now) layout.now callee.now }
{
    Own {
        body: body(program, callee),
        cells: layout.cells(callee),
    }
}

/// Returns the same for the frame that the run's next event begins, if it begins one. Must be
/// called before that event is made.
pub(crate) fn of_next(serial: &SerialRun, layout: &Layout) -> Option<Own>
    ensures { (p : Source) → BeginsOwn p layout.now serial.now result }
{
    match serial.target() {
        Some(it) => Some(of_target(layout, &it)),
        None => None,
    }
}

fn of_target(layout: &Layout, target: &Target) -> Own
    ensures { result ≡ own_by layout.now target.now }
{
    match target {
        Target::Function(number) => Own {
            body: Body::Function(*number),
            cells: layout.function_cells(*number),
        },
        Target::Loop(part) => Own {
            body: Body::Loop(part.number),
            cells: layout.part_cells(part),
        },
    }
}

/// Appends a frame whose first cell is number `cells`, and returns the number of cells after it.
pub fn begin(frames: &mut Vec<PlannedFrame>, cells: u64, own: Own) -> Result<u64, AllocError>
    requires { cells < 2 ^ 32 }
    ensures frame { OnOk result (frames.new.items ≡ frames.old.items ++ record { body = own.body; first_cell = cells; cells = own.cells } ∷ []) }
    ensures cells { IfOk result (λ more. more ≡ cells + own.cells) }
{
    frames.push(PlannedFrame {
        body: own.body,
        first_cell: cells as Cell,
        cells: own.cells,
    })?;
    Ok(cells + u64::from(own.cells))
}

fn body(program: &Program, callee: &Callee) -> Body
    ensures { result ≡ body_of (source program.now) callee.now }
{
    match callee {
        Callee::Root => Body::Function(program.main),
        Callee::Function(call) => Body::Function(call.function),
        Callee::Loop(part) => Body::Loop(part.number),
    }
}

/// The list of frames has each frame at its number, with its body and its cells.
///
/// Frames are identified by name, the path from the root. This is a law: the function does nothing.
pub fn frames_stand_at_their_numbers()
    ensures { FramesStandAtTheirNumbers }
{}
