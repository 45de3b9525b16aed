//! Recognizes programs without a reducer and without a `print`.

ghost use Rattle.std.specs.Prelude.{◌≡◌, map};
ghost use Rattle.std.specs.List.{list_all};
ghost use Rattle.cilk_lower.specs.Plain.{function_is_plain, is_plain, is_silent, loop_is_plain, row_is_silent};
ghost use Rattle.cilk_program.specs.Programs.{function, loop, statement, statements};
ghost use Rattle.cilk_program.specs.Sources.{source};

use cilk_program::program::{Function, Loop, Program};
use cilk_program::syntax::Stmt;

/// Returns whether a program has neither a reducer nor a `print`. The time is linear in the
/// program.
pub fn is_plain(program: &Program) -> bool
    ensures { result ≡ is_plain (source program.now) }
{
    program.reducers.is_empty()
        && functions_are_plain(&program.functions)
        && loops_are_plain(&program.loops)
}

fn functions_are_plain(functions: &[Function]) -> bool
    ensures { result ≡ list_all function_is_plain (map function functions.now) }
{
    'each: for f in functions {
        if !function_is_plain(f) {
            return false;
        }
    }
    true
}

fn function_is_plain(f: &Function) -> bool
    ensures { result ≡ function_is_plain (function f.now) }
{
    f.given.is_empty() && f.reducers.is_empty() && are_silent(&f.body)
}

fn loops_are_plain(loops: &[Loop]) -> bool
    ensures { result ≡ list_all loop_is_plain (map loop loops.now) }
{
    'each: for l in loops {
        if !are_silent(&l.body) {
            return false;
        }
    }
    true
}

// The statements of a block or a body.
#[cycle(silent)]
fn are_silent(row: &[Stmt]) -> bool
    ensures { result ≡ row_is_silent (statements row.now) }
{
    'each: for s in row {
        if !is_silent(s) {
            return false;
        }
    }
    true
}

#[cycle(silent)]
fn is_silent(s: &Stmt) -> bool
    ensures { result ≡ is_silent (statement s.now) }
{
    match s {
        Stmt::Empty(_) => true,
        Stmt::Block(_, row) => are_silent(row),
        Stmt::Declare(_) => true,
        Stmt::Assign(_, _) => true,
        Stmt::Change(_, _, _, _) => true,
        Stmt::Step(_, _) => true,
        Stmt::Invoke(_) => true,
        Stmt::Sync(_) => true,
        Stmt::If(_, _, body) => is_silent(body),
        Stmt::IfElse(_, _, first, second) => is_silent(first) && is_silent(second),
        Stmt::For(_, beginning, _, step, body) => {
            are_silent(beginning) && is_silent(body) && are_silent(step)
        }
        Stmt::ParallelFor(_, _, _, _) => true,
        Stmt::Print(_, _) => false,
        Stmt::Update(_, _, _) => true,
        Stmt::Set(_, _, _) => true,
        Stmt::Return(_, _) => true,
    }
}
