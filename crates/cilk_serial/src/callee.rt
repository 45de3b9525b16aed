// The callee of a request, and the cells of its frame.

ghost use Rattle.std.specs.Prelude.{◌≡◌, ◌<◌, length};
ghost use Rattle.cilk_program.specs.Syntax.{function_at, loop_at};
ghost use Rattle.cilk_program.specs.Sources.{source};
ghost use Rattle.cilk_program.specs.SerialRun.{cells_of};
ghost use Rattle.cilk_program.specs.declared.ask.Callee.TheVariants.{Loop};

use cilk_frames::halves::has_one;
use cilk_program::ask::LoopPart;
use cilk_program::program::Program;

/// Returns the number of cells of a function's frame.
pub fn function_cells(program: &Program, function: u32) -> u32
    requires { let p = source program.now in function < length p.functions }
    ensures { let f = function_at (source program.now) function in result ≡ f.cells }
{
    program.functions[function as usize].cells
}

/// Returns the number of cells of a frame of a loop's turns, which is 0 if it has several.
pub fn turn_cells(program: &Program, part: &LoopPart) -> u32
    requires { let p = source program.now in part.now.number < length p.loops }
    ensures { result ≡ cells_of (source program.now) (Loop part.now) }
{
    if has_one(*part) {
        loop_cells(program, part.number)
    } else {
        0
    }
}

// The number of cells of one turn's frame.
fn loop_cells(program: &Program, number: u32) -> u32
    requires { number < length program.now.loops.items }
    ensures { let l = loop_at (source program.now) number in result ≡ l.cells }
{
    program.loops[number as usize].cells
}
