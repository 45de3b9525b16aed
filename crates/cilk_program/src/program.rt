//! Programs whose names are resolved.

ghost use Rattle.std.specs.Prelude.{IsTrue};
ghost use Rattle.cilk_program.specs.Programs.{source_of};
ghost use Rattle.cilk_program.specs.WellNamed.{is_well_named};

use crate::syntax::Stmt;
use cilk_monoid::kind::MonoidKind;
use cilk_types::sequence::Sequence;
use cilk_types::word_list::WordList;

/// A function. Its frame has `cells` cells: its `words` word parameters first, then its variables
/// in order of declaration.
/// `given` has the monoids of its reducer parameters, and `reducers` those of the reducers that it
/// declares, in order. `at` and `end` are the bytes of the text where its name begins and of the
/// brace that closes it.
#[derive(Drop)]
pub struct Function {
    pub at: usize,
    pub end: usize,
    pub words: u32,
    pub given: Sequence<MonoidKind>,
    pub cells: u32,
    pub reducers: Sequence<MonoidKind>,
    pub body: Vec<Stmt>,
}

/// The function or loop whose body directly contains a loop.
#[derive(Clone, Copy, PartialEq, Eq)]
pub enum Body {
    Function(u32),
    Loop(u32),
}

/// A `cilk_for`. The frame of one turn has `cells` cells, the loop's variable first. `at` is the byte
/// of the text where its first word begins.
#[derive(Drop)]
pub struct Loop {
    pub at: usize,
    pub within: Body,
    pub cells: u32,
    pub body: Vec<Stmt>,
}

/// A global reducer: its name in the source text, and its monoid.
#[derive(Drop)]
pub struct GlobalReducer {
    pub name: Sequence<u8>,
    pub kind: MonoidKind,
}

/// A program in which every name refers to something that exists. Global cells (by their opening
/// values), global reducers and functions are in order of declaration.
/// Loops are in order of their first words, and `main` is the index of the main function.
pub struct Program {
    pub globals: WordList,
    pub reducers: Vec<GlobalReducer>,
    pub functions: Vec<Function>,
    pub loops: Vec<Loop>,
    pub main: u32,
    ghost well_named: { IsTrue (is_well_named (source_of globals reducers.items functions.items loops.items main)) },
}

// A separate function, so that a proof follows one call where a program is dropped.
impl Drop for Program {
    fn drop(self) {
        let Program {
            globals: _globals,
            reducers: _reducers,
            functions: _functions,
            loops: _loops,
            main: _,
        } = self;
    }
}
