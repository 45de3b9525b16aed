//! Resolving expressions and assignments.

ghost use Rattle.std.specs.Prelude.{◌≡◌, OnOk, IfOk, option_map};
ghost use Rattle.cilk_syntax.specs.Trees as trees;
ghost use Rattle.cilk_program.specs.Programs.{expression, optional, statement, target};
ghost use Rattle.cilk_program.specs.Syntax.{Assign, Change, Step};
ghost use Rattle.cilk_names.specs.Faults.{earliest};
ghost use Rattle.cilk_names.specs.Misnamings.{expression_faults, optional_faults, place_faults, assignment_faults};
ghost use Rattle.cilk_names.specs.Pass.{assignment_of, element_of, expression_of, optional_of, or_empty, read_of, target_in, target_of, value_of};
ghost use Rattle.cilk_names.specs.Tables.{names_of};

use crate::kind::Misnaming;
use crate::operators::{between, in_front};
use crate::sights::{array, reducer, variable, written};
use crate::table::Table;
use cilk_program::syntax::{Array, Expr, Literal, Place, Reducer, Stmt, Target};
use cilk_syntax::tree;
use cilk_types::compound::Compound;
use std::alloc::{AllocError, Global};

/// Makes an expression that reads a variable named at a place of the text, or 0 if there is none.
fn read(at: usize, place: Option<Place>) -> Expr
    ensures { expression result ≡ read_of place }
{
    match place {
        Some(place) => Expr::Variable(at, place),
        None => Expr::Number(at, Literal { value: 0 }),
    }
}

/// Makes an expression that reads an element of an array named at a place of the text, or 0 if there
/// is no array.
fn element(at: usize, array: Option<Array>, index: Box<Expr>) -> Expr
    ensures { expression result ≡ element_of array (expression index.value) }
{
    match array {
        Some(array) => Expr::Element(at, array, index),
        None => Expr::Number(at, Literal { value: 0 }),
    }
}

/// Makes an expression that reads the value of a reducer named at a place of the text, or 0 if there
/// is no reducer.
fn value(at: usize, reducer: Option<Reducer>) -> Expr
    ensures { expression result ≡ value_of reducer }
{
    match reducer {
        Some(reducer) => Expr::Value(at, reducer),
        None => Expr::Number(at, Literal { value: 0 }),
    }
}

/// Resolves an expression that is a part of another.
#[cycle(expressions)]
pub(crate) fn part(
    alloc: Global,
    table: &Table,
    tree: &tree::Expr,
    first: &mut Option<Misnaming>,
) -> Result<Box<Expr>, AllocError>
    ensures faults { OnOk result (first.new ≡ earliest first.old (expression_faults (names_of table.now) (trees.expression tree.now))) }
    ensures value { IfOk result (λ r. expression r.value ≡ expression_of (names_of table.now) (trees.expression tree.now)) }
{
    let resolved = expression(alloc, table, tree, first)?;
    Ok(Box::new(alloc, resolved)?)
}

/// Resolves an expression and notes faults. A wrong name reads as 0.
#[cycle(expressions)]
#[tactic(auto, using(crate::proofs::Earliest::earliest_append))]
pub(crate) fn expression(
    alloc: Global,
    table: &Table,
    tree: &tree::Expr,
    first: &mut Option<Misnaming>,
) -> Result<Expr, AllocError>
    ensures faults { OnOk result (first.new ≡ earliest first.old (expression_faults (names_of table.now) (trees.expression tree.now))) }
    ensures value { IfOk result (λ r. expression r ≡ expression_of (names_of table.now) (trees.expression tree.now)) }
{
    match tree {
        tree::Expr::Number(at, value) => Ok(Expr::Number(*at, Literal { value: *value })),
        tree::Expr::Variable(name) => Ok(read(name.at, variable(table, *name, first))),
        tree::Expr::Element(name, index) => {
            let array = array(table, *name, first);
            let index = part(alloc, table, index, first)?;
            Ok(element(name.at, array, index))
        }
        tree::Expr::Group(inner) => expression(alloc, table, inner, first),
        tree::Expr::Unary(at, operator, operand) => {
            let operand = part(alloc, table, operand, first)?;
            Ok(in_front(*at, *operator, operand))
        }
        tree::Expr::Binary(at, operator, left, right) => {
            let left = part(alloc, table, left, first)?;
            let right = part(alloc, table, right, first)?;
            Ok(between(*at, *operator, left, right))
        }
        tree::Expr::Value(name) => Ok(value(name.at, reducer(table, *name, first))),
        tree::Expr::Input(at, index) => Ok(Expr::Input(*at, part(alloc, table, index, first)?)),
        tree::Expr::InputCount(at) => Ok(Expr::InputCount(*at)),
    }
}

/// Resolves an expression that may be absent.
pub(crate) fn optional(
    alloc: Global,
    table: &Table,
    tree: &Option<Box<tree::Expr>>,
    first: &mut Option<Misnaming>,
) -> Result<Option<Box<Expr>>, AllocError>
    ensures faults { OnOk result (first.new ≡ earliest first.old (optional_faults (names_of table.now) (trees.optional tree.now))) }
    ensures value { IfOk result (λ r. optional r ≡ optional_of (names_of table.now) (trees.optional tree.now)) }
{
    match tree {
        Some(tree) => Ok(Some(part(alloc, table, tree, first)?)),
        None => Ok(None),
    }
}

/// Resolves the target of an assignment, or notes a fault and returns none.
#[tactic(auto, using(crate::proofs::Earliest::earliest_append))]
fn target(
    alloc: Global,
    table: &Table,
    tree: &tree::Lvalue,
    first: &mut Option<Misnaming>,
) -> Result<Option<Target>, AllocError>
    ensures faults { OnOk result (first.new ≡ earliest first.old (place_faults (names_of table.now) (trees.place tree.now))) }
    ensures value { IfOk result (λ r. option_map target r ≡ target_of (names_of table.now) (trees.place tree.now)) }
{
    match tree {
        tree::Lvalue::Variable(name) => match written(table, *name, first) {
            Some(place) => Ok(Some(Target::Variable(name.at, place))),
            None => Ok(None),
        },
        tree::Lvalue::Element(name, index) => {
            let array = array(table, *name, first);
            let index = part(alloc, table, index, first)?;
            match array {
                Some(array) => Ok(Some(Target::Element(name.at, array, index))),
                None => Ok(None),
            }
        }
    }
}

/// Returns the place of the text that names the target of an assignment.
fn place_of(tree: &tree::Lvalue) -> usize {
    match tree {
        tree::Lvalue::Variable(name) | tree::Lvalue::Element(name, _) => name.at,
    }
}

/// Returns the target of an assignment.
fn target_in(tree: &tree::Assignment) -> &tree::Lvalue
    ensures { trees.place result.now ≡ target_in (trees.assignment tree.now) }
{
    match tree {
        tree::Assignment::Set(place, _)
        | tree::Assignment::Compound(_, _, place, _)
        | tree::Assignment::Increment(place)
        | tree::Assignment::Decrement(place) => place,
    }
}

/// Makes an assignment of a value to a target named at a place of the text, or an empty statement if
/// there is no target.
fn assign(at: usize, place: Option<Target>, value: Expr) -> Stmt
    ensures { statement result ≡ or_empty (option_map target place) (λ t. Assign t (expression value)) }
{
    match place {
        Some(place) => Stmt::Assign(place, value),
        None => Stmt::Empty(at),
    }
}

/// Makes a compound assignment of a value to a target named at a place of the text, or an empty
/// statement if there is no target. `mark` is the place of the operator.
fn change(at: usize, place: Option<Target>, mark: usize, operator: Compound, value: Expr) -> Stmt
    ensures { statement result ≡ or_empty (option_map target place) (λ t. Change t operator (expression value)) }
{
    match place {
        Some(place) => Stmt::Change(operator, place, mark, value),
        None => Stmt::Empty(at),
    }
}

/// Makes an increment or a decrement of a target named at a place of the text, or an empty statement
/// if there is no target.
fn step(at: usize, place: Option<Target>, by: i64) -> Stmt
    ensures { statement result ≡ or_empty (option_map target place) (λ t. Step t by) }
{
    match place {
        Some(place) => Stmt::Step(place, by),
        None => Stmt::Empty(at),
    }
}

/// Resolves an assignment and notes faults. With a fault the result may be an empty statement.
#[tactic(auto, using(crate::proofs::Earliest::earliest_append))]
pub(crate) fn assignment(
    alloc: Global,
    table: &Table,
    tree: &tree::Assignment,
    first: &mut Option<Misnaming>,
) -> Result<Stmt, AllocError>
    ensures faults { OnOk result (first.new ≡ earliest first.old (assignment_faults (names_of table.now) (trees.assignment tree.now))) }
    ensures value { IfOk result (λ r. statement r ≡ assignment_of (names_of table.now) (trees.assignment tree.now)) }
{
    let named = target_in(tree);
    let at = place_of(named);
    let place = target(alloc, table, named, first)?;
    match tree {
        tree::Assignment::Set(_, value) => {
            let value = expression(alloc, table, value, first)?;
            Ok(assign(at, place, value))
        }
        tree::Assignment::Compound(mark, operator, _, value) => {
            let value = expression(alloc, table, value, first)?;
            Ok(change(at, place, *mark, *operator, value))
        }
        tree::Assignment::Increment(_) => Ok(step(at, place, 1)),
        tree::Assignment::Decrement(_) => Ok(step(at, place, -1)),
    }
}
