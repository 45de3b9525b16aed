//! Resolving calls.

ghost use Rattle.std.specs.Prelude.{◌≡◌, ◌||◌, not, OnOk, IfOk, map, ◌++◌, Some, option_map, slice_get, unwrap_or};
ghost use Rattle.cilk_syntax.specs.Trees as trees;
ghost use Rattle.cilk_program.specs.Programs.{expression, invoke};
ghost use Rattle.cilk_names.specs.Sights.{signature_of};
ghost use Rattle.cilk_names.specs.Calls.{bare_name};
ghost use Rattle.cilk_names.specs.Faults.{earliest};
ghost use Rattle.cilk_names.specs.Misnamings.{argument_faults, arguments_faults, bare_faults, call_faults, fit_faults, returns_word};
ghost use Rattle.cilk_names.specs.Pass.{bare_reducer, invoke_of, reducer_of_argument, reducers_of, word_of_argument, words_of};
ghost use Rattle.cilk_names.specs.Tables.{names_of};
ghost use Rattle.cilk_names.specs.declared.signature.ParameterKind.TheVariants.{Word};

use crate::expressions::expression;
use crate::kind::{Misnaming, NameErrorKind};
use crate::sights::{function, given, note_unless};
use crate::signature::ParameterKind;
use crate::table::{Table, signature};
use cilk_monoid::kind::MonoidKind;
use cilk_program::syntax::{Expr, Invoke, Place, Reducer};
use cilk_syntax::tree;
use cilk_syntax::tree::{Argument, Name, ReturnType};
use cilk_types::invocation::Invocation;
use std::alloc::{AllocError, Global};

/// The arguments of a call: the words and the reducers, each in order.
#[derive(Drop)]
struct Passed {
    words: Vec<Expr>,
    reducers: Vec<Reducer>,
}

/// Returns the name in an argument that is a bare name.
fn bare_name(tree: &tree::Expr) -> Option<Name>
    ensures { result ≡ bare_name (trees.expression tree.now) }
{
    match tree {
        tree::Expr::Variable(name) => Some(*name),
        tree::Expr::Number(_, _)
        | tree::Expr::Element(_, _)
        | tree::Expr::Group(_)
        | tree::Expr::Unary(_, _, _)
        | tree::Expr::Binary(_, _, _, _)
        | tree::Expr::Value(_)
        | tree::Expr::Input(_, _)
        | tree::Expr::InputCount(_) => None,
    }
}

/// Resolves an argument for a reducer parameter of this monoid, and notes faults.
#[tactic(auto, using(crate::proofs::Earliest::earliest_append))]
fn bare(
    alloc: Global,
    table: &Table,
    kind: Option<MonoidKind>,
    argument: &Argument,
    first: &mut Option<Misnaming>,
) -> Result<Option<Reducer>, AllocError>
    ensures faults { OnOk result (first.new ≡ earliest first.old
        (bare_faults (names_of table.now) kind (trees.argument argument.now).at (trees.argument argument.now).value
        (bare_name (trees.argument argument.now).value))) }
    ensures value { IfOk result (λ r. r ≡ bare_reducer (names_of table.now) (bare_name (trees.argument argument.now).value)) }
{
    match bare_name(&argument.value) {
        Some(name) => Ok(given(table, name, kind, argument.at, first)),
        None => {
            note_unless(false, NameErrorKind::WrongKind, argument.at, first);
            let _value = expression(alloc, table, &argument.value, first)?;
            Ok(None)
        }
    }
}

impl Passed {
    /// Adds an argument for a parameter.
    fn add(
        &mut self,
        alloc: Global,
        table: &Table,
        kind: ParameterKind,
        argument: &Argument,
        first: &mut Option<Misnaming>,
    ) -> Result<(), AllocError>
        ensures faults { OnOk result (first.new ≡ earliest first.old (argument_faults (names_of table.now) kind (trees.argument argument.now))) }
        ensures words { OnOk result (map expression self.new.words.items ≡ map expression self.old.words.items
            ++ word_of_argument (names_of table.now) kind (trees.argument argument.now)) }
        ensures reducers { OnOk result (self.new.reducers.items ≡ self.old.reducers.items
            ++ reducer_of_argument (names_of table.now) kind (trees.argument argument.now)) }
    {
        match kind {
            ParameterKind::Word => {
                let word = expression(alloc, table, &argument.value, first)?;
                self.words.push(word)?;
            }
            ParameterKind::Reducer(kind) => {
                if let Some(reducer) = bare(alloc, table, kind, argument, first)? {
                    self.reducers.push(reducer)?;
                }
            }
        }
        Ok(())
    }
}

/// Returns the kind of the parameter at an index; past the last it is a word.
fn kind_at(kinds: &[ParameterKind], index: usize) -> ParameterKind
    ensures { result ≡ unwrap_or (slice_get kinds.now index) Word }
{
    match kinds.get(index) {
        Some(kind) => *kind,
        None => ParameterKind::Word,
    }
}

/// Resolves the arguments for these parameters, and notes faults. Arguments past the last parameter
/// count as words.
fn arguments(
    alloc: Global,
    table: &Table,
    kinds: &[ParameterKind],
    list: &[Argument],
    first: &mut Option<Misnaming>,
) -> Result<Passed, AllocError>
    ensures faults { OnOk result (first.new ≡ earliest first.old (arguments_faults (names_of table.now) kinds.now (trees.arguments_of list.now))) }
    ensures words { IfOk result (λ r. map expression r.words.items ≡ words_of (names_of table.now) kinds.now (trees.arguments_of list.now)) }
    ensures reducers { IfOk result (λ r. r.reducers.items ≡ reducers_of (names_of table.now) kinds.now (trees.arguments_of list.now)) }
{
    let mut found = Passed {
        words: Vec::new(alloc),
        reducers: Vec::new(alloc),
    };
    'each: for (index, argument) in list.iter().enumerate() {
        let kind = kind_at(kinds, index);
        found.add(alloc, table, kind, argument, first)?;
    }
    Ok(found)
}

/// Tells whether the function returns a value, or none is needed.
fn gives(returns: ReturnType, is_taken: bool) -> bool
    ensures { result ≡ (returns_word returns || not is_taken) }
{
    match returns {
        ReturnType::Int => true,
        ReturnType::Void => !is_taken,
    }
}

/// Resolves a call, or returns none if the name isn't a function. Notes faults, including a wrong
/// number of arguments and a function without a result whose result is used.
#[tactic(auto, using(crate::proofs::Earliest::earliest_append))]
pub(crate) fn call(
    alloc: Global,
    table: &Table,
    how: Invocation,
    call: &tree::Call,
    is_taken: bool,
    result_place: Option<Place>,
    first: &mut Option<Misnaming>,
) -> Result<Option<Invoke>, AllocError>
    ensures faults { OnOk result (first.new ≡ earliest first.old (call_faults (names_of table.now) is_taken (trees.call call.now))) }
    ensures value { IfOk result (λ r. option_map invoke r ≡ invoke_of (names_of table.now) how (trees.call call.now) result_place) }
{
    let Some(function) = function(table, call.name, first) else {
        let _arguments = arguments(alloc, table, &[], &call.arguments, first)?;
        return Ok(None);
    };
    let kinds = fit(table, function, call, is_taken, first);
    let Passed { words, reducers } = arguments(alloc, table, kinds, &call.arguments, first)?;
    Ok(Some(Invoke {
        at: call.at,
        how,
        function,
        arguments: words,
        reducers,
        result: result_place,
    }))
}

/// Returns the parameters of a call's function. Notes a wrong number of arguments, and a function
/// without a result whose result is used.
#[tactic(auto, using(crate::proofs::Earliest::earliest_append, crate::proofs::Arguments::length_arguments))]
fn fit<'a>(
    table: &'a Table,
    function: u32,
    call: &tree::Call,
    is_taken: bool,
    first: &mut Option<Misnaming>,
) -> &'a [ParameterKind]
    ensures kinds { result.now ≡ (let s = signature_of (names_of table.now) (Some function) in s.parameters) }
    ensures faults { first.new ≡ earliest first.old
        (fit_faults (Some function) (signature_of (names_of table.now) (Some function)) is_taken
        (trees.call call.now)) }
{
    let (returns, kinds): (ReturnType, &'a [ParameterKind]) = signature(table, function);
    let is_whole = call.arguments.len() == kinds.len();
    note_unless(is_whole, NameErrorKind::WrongCount, call.name.at, first);
    let gives = gives(returns, is_taken);
    note_unless(gives, NameErrorKind::WrongKind, call.name.at, first);
    kinds
}
