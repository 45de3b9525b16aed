//! Emits expressions and statements' first ticks. `at` is the byte of the text that an instruction
//! comes from, and `room` is raised to the number of operands that they need.

ghost use Rattle.std.specs.Prelude.{◌≡◌, ◌+◌, ◌<◌, ◌^◌, max, map, [], ◌∷◌, ◌++◌, length, IfOk, OnOk};
ghost use Rattle.cilk_lower.specs.declared.code.Instr.{Instr};
ghost use Rattle.cilk_lower.specs.Code.{expr_code, exprs_code, literal, right_code};
ghost use Rattle.cilk_lower.specs.Rooms.{depth, depths};
ghost use Rattle.cilk_program.specs.Programs.{expression};

use crate::code::Instr;
use crate::put::{Listing, begin, begin_or, end_and, end_or, put, put_jump, put_operand};
use cilk_program::syntax::{Expr, Operator};
use std::alloc::AllocError;

/// Emits a statement's tick and its expression.
pub fn emit_begun(
    code: &mut Listing,
    room: &mut usize,
    at: usize,
    e: &Expr,
) -> Result<(), AllocError>
    ensures code { OnOk result (code.new.items ≡ code.old.items ++ (Instr.Tick ∷ expr_code (expression e.now))) }
    ensures room { OnOk result (room.new ≡ max room.old (depth (expression e.now))) }
{
    begin(code, at)?;
    emit_value(code, room, e)
}

/// Emits several expressions, each above the values of those before it.
pub fn emit_values(code: &mut Listing, room: &mut usize, row: &[Expr]) -> Result<(), AllocError>
    ensures code { OnOk result (code.new.items ≡ code.old.items ++ exprs_code (map expression row.now)) }
    ensures room { OnOk result (room.new ≡ max room.old (depths (map expression row.now))) }
{
    'each: for i in 0..row.len() {
        emit_above(code, room, i, &row[i])?;
    }
    Ok(())
}

/// Emits an expression without other operands below it.
pub fn emit_value(code: &mut Listing, room: &mut usize, e: &Expr) -> Result<(), AllocError>
    ensures code { OnOk result (code.new.items ≡ code.old.items ++ expr_code (expression e.now)) }
    ensures room { OnOk result (room.new ≡ max room.old (depth (expression e.now))) }
{
    emit_above(code, room, 0, e)
}

/// Emits an expression above `below` other operands.
pub fn emit_above(
    code: &mut Listing,
    room: &mut usize,
    below: usize,
    e: &Expr,
) -> Result<(), AllocError>
    requires { below < 2 ^ 63 }
    ensures code { OnOk result (code.new.items ≡ code.old.items ++ expr_code (expression e.now)) }
    ensures room { OnOk result (room.new ≡ max room.old (depth (expression e.now) + below)) }
{
    let needed = emit_expr(code, e)?;
    *room = (*room).max(needed + below);
    Ok(())
}

// Emits an expression, and returns the maximum number of its operands on the stack.
#[cycle(expressions)]
fn emit_expr(code: &mut Listing, e: &Expr) -> Result<usize, AllocError>
    ensures code { OnOk result (code.new.items ≡ code.old.items ++ expr_code (expression e.now)) }
    ensures depth { IfOk result (λ d. d ≡ depth (expression e.now)) }
{
    match e {
        Expr::Number(at, n) => put_operand(code, *at, Instr::Push(n.value)),
        Expr::Variable(at, x) => put_operand(code, *at, Instr::Load(*x)),
        Expr::Value(at, reducer) => put_operand(code, *at, Instr::Value(*reducer)),
        Expr::InputCount(at) => put_operand(code, *at, Instr::InputCount),
        Expr::Element(at, array, index) => emit_unary(code, *at, index, Instr::LoadElement(*array)),
        Expr::Negate(at, e) => emit_unary(code, *at, e, Instr::Negate),
        Expr::Not(at, e) => emit_unary(code, *at, e, Instr::Not),
        Expr::Input(at, e) => emit_unary(code, *at, e, Instr::Input),
        Expr::Binary(at, operator, a, b) => {
            let left = emit_expr(code, a)?;
            let right = emit_right(code, *operator, b)?;
            put(code, *at, Instr::Apply(*operator))?;
            Ok(left.max(right + 1))
        }
        Expr::And(at, a, b) => {
            let left = emit_expr(code, a)?;
            let skip = put_jump(code, *at, Instr::JumpIfZero(0))?;
            let right = emit_expr(code, b)?;
            end_and(code, *at, skip)?;
            Ok(left.max(right))
        }
        Expr::Or(at, a, b) => {
            let left = emit_expr(code, a)?;
            let jump = begin_or(code, *at)?;
            let right = emit_expr(code, b)?;
            end_or(code, *at, jump)?;
            Ok(left.max(right))
        }
    }
}

// Emits the right operand of an operator. A number is pushed and applied at once.
#[cycle(expressions)]
fn emit_right(code: &mut Listing, operator: Operator, e: &Expr) -> Result<usize, AllocError>
    ensures code { let right = expression e.now in OnOk result (code.new.items ≡ code.old.items ++ right_code operator (literal right) (expr_code right)) }
    ensures depth { IfOk result (λ d. d ≡ depth (expression e.now)) }
{
    match e {
        Expr::Number(at, n) => put_operand(code, *at, Instr::ApplyNumber(operator, n.value)),
        _ => emit_expr(code, e),
    }
}

// Emits an operand and the instruction that takes it.
#[cycle(expressions)]
fn emit_unary(code: &mut Listing, at: usize, e: &Expr, last: Instr) -> Result<usize, AllocError>
    ensures code { OnOk result (code.new.items ≡ code.old.items ++ (expr_code (expression e.now) ++ last ∷ [])) }
    ensures depth { IfOk result (λ d. d ≡ depth (expression e.now)) }
{
    let needed = emit_expr(code, e)?;
    put(code, at, last)?;
    Ok(needed)
}
