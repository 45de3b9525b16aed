//! From the bytes of a program text to the program.

ghost use Rattle.std.specs.Prelude.{IfOk, IfErr};
ghost use Rattle.cilk_checker.specs.Judging.{AreNamesAtFault, IsSpellingFault, ResolvesTo};
ghost use Rattle.cilk_checker.specs.Judging.{IsProgramFault, IsProgramText, meant};
ghost use Rattle.cilk_parser.specs.Texts.{IsText};

use crate::fault::ProgramFault;
use cilk_names::fault::NameFault;
use cilk_names::resolve::resolve;
use cilk_parser::fault::TextFault;
use cilk_parser::parse::parse;
use cilk_program::program::Program;
use cilk_syntax::tree::Tree;
use std::alloc::Global;

// The syntax tree of a program text.
fn tree(alloc: Global, text: &[u8]) -> Result<Tree, ProgramFault>
    ensures ok { IfOk result (λ t. IsText text.now t) }
    ensures err { IfErr result (λ e. IsSpellingFault e text.now) }
{
    match parse(alloc, text) {
        Ok(tree) => Ok(tree),
        Err(TextFault::Memory) => Err(ProgramFault::Memory),
        Err(TextFault::At(number, place)) => Err(ProgramFault::Text(number, place)),
    }
}

// The program of a syntax tree.
fn resolved(alloc: Global, tree: &Tree) -> Result<Program, ProgramFault>
    ensures ok { IfOk result (λ p. ResolvesTo tree.now (meant p)) }
    ensures err { IfErr result (λ e. AreNamesAtFault e tree.now) }
{
    match resolve(alloc, tree) {
        Ok(program) => Ok(program),
        Err(NameFault::Memory) => Err(ProgramFault::Memory),
        Err(NameFault::At(number, place)) => Err(ProgramFault::Name(number, place)),
    }
}

/// Returns the program of a text, or its first fault.
///
/// Cost: linear in the text times the depth of its scopes.
pub fn program(alloc: Global, text: &[u8]) -> Result<Program, ProgramFault>
    ensures ok { IfOk result (λ p. IsProgramText text.now (meant p)) }
    ensures err { IfErr result (λ e. IsProgramFault e text.now) }
{
    let tree = tree(alloc, text)?;
    resolved(alloc, &tree)
}
