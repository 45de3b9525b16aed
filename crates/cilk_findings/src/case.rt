//! A program with its input and the names in its text.

use crate::fault::CaseFault;
use crate::map::TextMap;
use cilk_names::resolve::resolve;
use cilk_parser::input::parse_input;
use cilk_parser::parse::parse;
use cilk_program::program::Program;
use cilk_syntax::tree::Tree;
use cilk_types::input::Input;
use std::alloc::Global;

/// A program and its input, with the file's name, the program's text and the names in it.
pub struct Case<'a> {
    pub alloc: Global,
    pub file: &'a str,
    pub text: &'a [u8],
    pub program: Program,
    pub input: Input,
    pub map: TextMap,
}

// Written out, so that a proof follows one call where a case is dropped.
impl Drop for Case<'_> {
    fn drop(self) {
        let Case {
            alloc: _alloc,
            file: _file,
            text: _text,
            program: _program,
            input: _input,
            map: _map,
        } = self;
    }
}

impl<'a> Case<'a> {
    /// Reads a program and its input. Fails with [`CaseFault::Unfit`] where either is refused.
    pub fn of(
        alloc: Global,
        file: &'a str,
        text: &'a [u8],
        input: &[u8],
    ) -> Result<Case<'a>, CaseFault> {
        let tree = parse(alloc, text)?;
        of_tree(alloc, file, text, &tree, input)
    }
}

fn of_tree<'a>(
    alloc: Global,
    file: &'a str,
    text: &'a [u8],
    tree: &Tree,
    input: &[u8],
) -> Result<Case<'a>, CaseFault> {
    let input = parse_input(alloc, input)?;
    let map = TextMap::of(alloc, tree)?;
    let program = resolve(alloc, tree)?;
    Ok(Case {
        alloc,
        file,
        text,
        program,
        input,
        map,
    })
}
