//! Emits the statements that contain no other statement.

ghost use Rattle.std.specs.Prelude.{◌≡◌, ◌+◌, ◌<◌, max, [], ◌∷◌, ◌++◌, length, IfOk, OnOk};
ghost use Rattle.cilk_lower.specs.declared.code.Instr.{Instr};
ghost use Rattle.cilk_lower.specs.Code.{expr_code, fetch, index_code, return_code, store};
ghost use Rattle.cilk_lower.specs.Rooms.{depth, index_depth, indices, optional_depth};
ghost use Rattle.cilk_lower.specs.Turns.{test_code, turned};
ghost use Rattle.cilk_program.specs.Programs.{expression, optional, target};

use crate::code::Instr;
use crate::expressions::{emit_above, emit_begun, emit_value};
use crate::put::{
    Listing, begin, go_back, go_back_unless_zero, pass_if_zero, put, put_ends, put_jump,
};
use cilk_program::syntax::{Expr, Target};
use cilk_types::compound::Compound;
use std::alloc::AllocError;

/// Emits a statement's tick, its expression, and the instruction that takes the value.
pub fn emit_last(
    code: &mut Listing,
    room: &mut usize,
    at: usize,
    e: &Expr,
    last: Instr,
) -> Result<(), AllocError>
    ensures code { OnOk result (code.new.items ≡ code.old.items ++ (Instr.Tick ∷ (expr_code (expression e.now) ++ last ∷ []))) }
    ensures room { OnOk result (room.new ≡ max room.old (depth (expression e.now))) }
{
    emit_begun(code, room, at, e)?;
    put(code, at, last)
}

/// Emits a statement's tick, a test and a conditional jump, and returns the jump's place. The
/// jump's distance is set later.
pub fn emit_choice(
    code: &mut Listing,
    room: &mut usize,
    at: usize,
    test: &Expr,
) -> Result<usize, AllocError>
    ensures code { OnOk result (code.new.items ≡ code.old.items ++ (Instr.Tick ∷ (expr_code (expression test.now) ++ Instr.JumpIfZero 0 ∷ []))) }
    ensures place { IfOk result (λ n. n ≡ length code.old.items + 1 + length (expr_code (expression test.now))) }
    ensures room { OnOk result (room.new ≡ max room.old (depth (expression test.now))) }
{
    emit_begun(code, room, at, test)?;
    put_jump(code, at, Instr::JumpIfZero(0))
}

/// Emits the condition of a `for`, if there is one, with a conditional jump. The jump's distance is
/// set later.
pub fn emit_test(
    code: &mut Listing,
    room: &mut usize,
    at: usize,
    test: &Option<Box<Expr>>,
) -> Result<(), AllocError>
    ensures code { OnOk result (code.new.items ≡ code.old.items ++ test_code (optional test.now)) }
    ensures room { OnOk result (room.new ≡ max room.old (optional_depth (optional test.now))) }
{
    match test {
        Some(e) => {
            emit_value(code, room, e)?;
            put(code, at, Instr::JumpIfZero(0))
        }
        None => Ok(()),
    }
}

/// Emits the end of a turn whose body begins at `start`: the condition of a `for` again, if there is
/// one, and a jump back. Patches the jump before the body, which leaves the loop.
pub fn end_turn(
    code: &mut Listing,
    room: &mut usize,
    at: usize,
    test: &Option<Box<Expr>>,
    start: usize,
) -> Result<(), AllocError>
    requires first { 0 < start }
    requires start { start < length code.old.items }
    ensures code { OnOk result (code.new.items ≡ turned (optional test.now) start code.old.items) }
    ensures room { OnOk result (room.new ≡ max room.old (optional_depth (optional test.now))) }
{
    match test {
        Some(e) => {
            emit_value(code, room, e)?;
            go_back_unless_zero(code, at, start)?;
            pass_if_zero(code, start - 1);
            Ok(())
        }
        None => go_back(code, at, start),
    }
}

/// Emits a `sync`.
pub fn emit_sync(code: &mut Listing, at: usize) -> Result<(), AllocError>
    ensures { OnOk result (code.new.items ≡ code.old.items ++ (Instr.Tick ∷ (Instr.Sync ∷ []))) }
{
    begin(code, at)?;
    put(code, at, Instr::Sync)
}

/// Emits an assignment.
#[tactic(auto, using(crate::proofs::Lists::assigned))]
pub fn emit_assign(
    code: &mut Listing,
    room: &mut usize,
    to: &Target,
    e: &Expr,
) -> Result<(), AllocError>
    ensures code { OnOk result (code.new.items ≡ code.old.items ++ (Instr.Tick ∷ (index_code (target to.now) ++ (expr_code (expression e.now) ++ store (target to.now) ∷ [])))) }
    ensures room { OnOk result (room.new ≡ max room.old (max (index_depth (target to.now)) (depth (expression e.now) + indices (target to.now)))) }
{
    let at = origin_of(to);
    begin(code, at)?;
    let below = emit_index(code, room, to)?;
    emit_above(code, room, below, e)?;
    put(code, at, store_to(to))
}

/// Emits a compound assignment, whose mark is at byte `mark`.
pub fn emit_change(
    code: &mut Listing,
    room: &mut usize,
    to: &Target,
    mark: usize,
    operator: Compound,
    e: &Expr,
) -> Result<(), AllocError>
    ensures code { OnOk result (code.new.items ≡ code.old.items ++ (Instr.Tick ∷ (index_code (target to.now) ++ (fetch (target to.now) ∷ (expr_code (expression e.now) ++ (Instr.Combine operator ∷ (store (target to.now) ∷ []))))))) }
    ensures room { OnOk result (room.new ≡ max room.old (max (index_depth (target to.now)) (depth (expression e.now) + (indices (target to.now) + 1)))) }
{
    let at = origin_of(to);
    begin(code, at)?;
    let below = emit_index(code, room, to)?;
    put(code, at, fetch_from(to))?;
    emit_above(code, room, below + 1, e)?;
    put(code, mark, Instr::Combine(operator))?;
    put(code, at, store_to(to))
}

/// Emits the addition of a number to a target.
pub fn emit_step(
    code: &mut Listing,
    room: &mut usize,
    to: &Target,
    number: i64,
) -> Result<(), AllocError>
    ensures code { OnOk result (code.new.items ≡ code.old.items ++ (Instr.Tick ∷ (index_code (target to.now) ++ (fetch (target to.now) ∷ (Instr.AddNumber number ∷ (store (target to.now) ∷ [])))))) }
    ensures room { OnOk result (room.new ≡ max room.old (max (index_depth (target to.now)) (indices (target to.now) + 1))) }
{
    let at = origin_of(to);
    begin(code, at)?;
    let below = emit_index(code, room, to)?;
    *room = (*room).max(below + 1);
    put(code, at, fetch_from(to))?;
    put(code, at, Instr::AddNumber(number))?;
    put(code, at, store_to(to))
}

/// Emits a parallel loop: its two bounds, and the call of the frame of all its turns.
#[tactic(auto, using(crate::proofs::Lists::called))]
pub fn emit_parallel(
    code: &mut Listing,
    room: &mut usize,
    at: usize,
    low: &Expr,
    high: &Expr,
    number: u32,
) -> Result<(), AllocError>
    ensures code { OnOk result (code.new.items ≡ code.old.items ++ (Instr.Tick ∷ (expr_code (expression low.now) ++ (expr_code (expression high.now) ++ (Instr.CallLoop number ∷ (Instr.Resume ∷ [])))))) }
    ensures room { OnOk result (room.new ≡ max room.old (max (depth (expression low.now)) (depth (expression high.now) + 1))) }
{
    emit_begun(code, room, at, low)?;
    emit_above(code, room, 1, high)?;
    put(code, at, Instr::CallLoop(number))?;
    put(code, at, Instr::Resume)
}

/// Emits a `return`. Its value, if any, is kept until the frame's children have ended.
#[tactic(auto, using(crate::proofs::Lists::returned_value))]
pub fn emit_return(
    code: &mut Listing,
    room: &mut usize,
    at: usize,
    e: &Option<Box<Expr>>,
) -> Result<(), AllocError>
    ensures code { OnOk result (code.new.items ≡ code.old.items ++ (Instr.Tick ∷ return_code (optional e.now))) }
    ensures room { OnOk result (room.new ≡ max room.old (optional_depth (optional e.now))) }
{
    match e {
        Some(e) => {
            emit_begun(code, room, at, e)?;
            put(code, at, Instr::SetResult)?;
            put_ends(code, at)
        }
        None => {
            begin(code, at)?;
            put_ends(code, at)
        }
    }
}

// Emits a target's index, if there is one, and returns how many operands that puts on the stack.
fn emit_index(code: &mut Listing, room: &mut usize, to: &Target) -> Result<usize, AllocError>
    ensures code { OnOk result (code.new.items ≡ code.old.items ++ index_code (target to.now)) }
    ensures room { OnOk result (room.new ≡ max room.old (index_depth (target to.now))) }
    ensures indices { IfOk result (λ n. n ≡ indices (target to.now)) }
{
    match to {
        Target::Variable(_, _) => Ok(0),
        Target::Element(_, _, index) => {
            emit_value(code, room, index)?;
            Ok(1)
        }
    }
}

// The byte of a target's name.
fn origin_of(to: &Target) -> usize {
    match to {
        Target::Variable(at, _) => *at,
        Target::Element(at, _, _) => *at,
    }
}

// The instruction that loads a target's old value.
fn fetch_from(to: &Target) -> Instr
    ensures { result ≡ fetch (target to.now) }
{
    match to {
        Target::Variable(_, x) => Instr::LoadUncounted(*x),
        Target::Element(_, array, _) => Instr::FetchElement(*array),
    }
}

// The instruction that stores a target's new value.
fn store_to(to: &Target) -> Instr
    ensures { result ≡ store (target to.now) }
{
    match to {
        Target::Variable(_, x) => Instr::Store(*x),
        Target::Element(_, array, _) => Instr::StoreElement(*array),
    }
}
