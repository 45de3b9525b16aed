//! The functions of a text, as known before its first item.

ghost use Rattle.std.specs.Prelude.{◌≡◌, ◌<◌, ◌-◌, ◌^◌, [], ◌∷◌, ◌++◌, IfOk, OnOk};
ghost use Rattle.cilk_syntax.specs.Trees as trees;
ghost use Rattle.cilk_names.specs.Contexts.{functions_behind, functions_known, kind_of, kinds_of, signatures_of, with_item};
ghost use Rattle.cilk_names.specs.Globals.{is_main, is_main_item, main_of};
ghost use Rattle.cilk_names.specs.Tables.{names_of};

use crate::scene::number_of;
use crate::signature::{ParameterKind, Signature};
use crate::table::{Table, bytes_of};
use cilk_monoid::kind::MonoidKind;
use cilk_syntax::tree::{Item, Name, Parameter, ReturnType};
use cilk_types::sequence::Sequence;
use std::alloc::{AllocError, Global};

/// Returns the kind of a parameter.
fn kind_of(text: &[u8], parameter: Parameter) -> ParameterKind
    ensures { result ≡ kind_of text.now parameter }
{
    match parameter {
        Parameter::Variable(_) => ParameterKind::Word,
        Parameter::Reducer(reducer) => {
            ParameterKind::Reducer(MonoidKind::named(bytes_of(text, reducer.monoid)))
        }
    }
}

/// Returns the kinds of parameters, in order.
fn kinds_of(
    alloc: Global,
    text: &[u8],
    parameters: &[Parameter],
) -> Result<Sequence<ParameterKind>, AllocError>
    ensures { IfOk result (λ r. r ≡ kinds_of text.now parameters.now) }
{
    let mut kinds = Vec::new(alloc);
    'each: for parameter in parameters {
        kinds.push(kind_of(text, *parameter))?;
    }
    Ok(Sequence::new(kinds))
}

/// Appends the signature of an item, if it is a function.
fn push_signature(
    alloc: Global,
    text: &[u8],
    item: &Item,
    signatures: &mut Vec<Signature>,
) -> Result<(), AllocError>
    ensures { OnOk result (signatures.new.items ≡ signatures.old.items ++ signatures_of text.now (trees.item item.now ∷ [])) }
{
    match item {
        Item::Globals(_) | Item::Reducer(_) => Ok(()),
        Item::Function(returns, _, parameters, _, _) => {
            let parameters = kinds_of(alloc, text, parameters)?;
            signatures.push(Signature {
                returns: *returns,
                parameters,
            })?;
            Ok(())
        }
    }
}

/// Returns the signatures of the functions of a text, in order.
pub(crate) fn signatures_of(
    alloc: Global,
    text: &[u8],
    items: &[Item],
) -> Result<Vec<Signature>, AllocError>
    ensures { IfOk result (λ r. r.items ≡ signatures_of text.now (trees.items_of items.now)) }
{
    let mut signatures = Vec::new(alloc);
    'each: for item in items {
        push_signature(alloc, text, item, &mut signatures)?;
    }
    Ok(signatures)
}

/// Returns the number of functions up to and including an item, given the number before it.
fn functions_behind(count: usize, item: &Item) -> usize
    requires { count < 2 ^ 64 - 1 }
    ensures { result ≡ functions_behind count (trees.item item.now) }
{
    match item {
        Item::Globals(_) | Item::Reducer(_) => count,
        Item::Function(_, _, _, _, _) => count + 1,
    }
}

/// Makes the table that holds before the first item: the functions of the text, none of them
/// declared yet. If two have the same name, the first is known.
pub(crate) fn known<'a>(
    alloc: Global,
    text: &'a [u8],
    signatures: &'a [Signature],
    items: &[Item],
) -> Result<Table<'a>, AllocError>
    ensures { IfOk result (λ t. names_of t ≡ record { text = text.now; signatures = signatures.now; inner = functions_known text.now 0 (trees.items_of items.now); outer = []; level = 0 }) }
{
    let mut table = Table::new(alloc, text, signatures);
    let mut count = 0;
    'each: for item in items {
        know(&mut table, item, count)?;
        count = functions_behind(count, item);
    }
    Ok(table)
}

/// Enters the function of an item under its number, if the item is a function.
fn know(table: &mut Table, item: &Item, number: usize) -> Result<(), AllocError>
    ensures names { OnOk result (names_of table.new ≡ (let n = names_of table.old in record n { inner = with_item n.text n.inner number (trees.item item.now) })) }
{
    match item {
        Item::Globals(_) | Item::Reducer(_) => Ok(()),
        Item::Function(_, name, _, _, _) => {
            table.know(*name, number_of(number)?)?;
            Ok(())
        }
    }
}

/// Tells whether a function is the main function.
fn is_main(text: &[u8], returns: ReturnType, name: Name, parameters: &[Parameter]) -> bool
    ensures { result ≡ is_main text.now returns name parameters.now }
{
    match (returns, parameters) {
        (ReturnType::Int, []) => bytes_of(text, name) == b"main".as_slice(),
        (ReturnType::Int, [_, ..]) | (ReturnType::Void, _) => false,
    }
}

/// Tells whether an item is the main function.
fn is_main_item(text: &[u8], item: &Item) -> bool
    ensures { result ≡ is_main_item text.now (trees.item item.now) }
{
    match item {
        Item::Globals(_) | Item::Reducer(_) => false,
        Item::Function(returns, name, parameters, _, _) => {
            is_main(text, *returns, *name, parameters)
        }
    }
}

/// Returns the number of the main function.
pub(crate) fn main_of(text: &[u8], items: &[Item]) -> Option<usize>
    ensures { result ≡ main_of text.now 0 (trees.items_of items.now) }
{
    let mut count = 0;
    'each: for item in items {
        if is_main_item(text, item) {
            return Some(count);
        }
        count = functions_behind(count, item);
    }
    None
}
