//! Compiles a program.

ghost use Rattle.std.specs.Prelude.{IfOk};
ghost use Rattle.cilk_lower.specs.Behaves.{Behaves};
ghost use Rattle.cilk_lower.specs.Layout.{LaysOut};
ghost use Rattle.cilk_lower.specs.Rooms.{RoomsFit};
ghost use Rattle.cilk_program.specs.Sources.{source};

use crate::bodies::{emit_functions, emit_loops, put_globals};
use crate::code::{Code, EntryPoint};
use crate::emitter::Emitter;
use crate::layout::lay_out;
use crate::put::Listing;
use cilk_program::program::Program;
use std::alloc::{AllocError, Global};

/// Compiles a program. Each frame of the code makes the requests of the program's frame, and has
/// room for exactly as many operands as its body needs.
///
/// The main function is emitted once, after the instructions that create the global reducers. The
/// root's frame begins before those instructions, and a frame of main that another function calls
/// begins after them. The only error is out of memory. The time is linear in the program.
pub fn lower(alloc: Global, program: &Program) -> Result<Code, AllocError>
    ensures asks { IfOk result (λ code. Behaves (source program.now) code) }
    ensures rooms { IfOk result (λ code. RoomsFit (source program.now) code) }
    ensures layout { IfOk result (λ code. LaysOut (source program.now) code.layout) }
{
    let mut out = Emitter {
        instrs: Listing::new(alloc),
        sites: Vec::new(alloc),
        room: 0,
    };
    put_globals(&mut out.instrs, &program.reducers)?;
    let main = program.main as usize;
    let entry = out.emit_function(&program.functions[main])?;
    let functions = emit_functions(alloc, &mut out, &program.functions, main, entry)?;
    let loops = emit_loops(alloc, &mut out, &program.loops)?;
    let root = EntryPoint {
        place: 0,
        room: entry.room,
    };
    let layout = lay_out(alloc, program)?;
    Ok(Code::new(out.instrs, out.sites, root, functions, loops, layout))
}
