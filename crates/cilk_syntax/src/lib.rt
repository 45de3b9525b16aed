//! The tokens, the grammar and the syntax tree of program texts.
//!
//! Program texts are written in a small Cilk: `int` variables, arrays and functions, with
//! `cilk_spawn`, `cilk_sync`, `cilk_for` and reducers. [`lexer::lex`] cuts the bytes of a text into
//! tokens. The parser, `cilk_parser`, makes a [`tree::Tree`] of them, with the helpers that are
//! here: [`marks`] reads single tokens, [`operators`] and [`firsts`] decide what comes next, and a
//! [`stop::Stop`] says why reading stops. The grammar is written out at [`tree`].
//!
//! Three definitions in `specs` are the standard that lexer and parser are proved against:
//!
//! | File | Definition |
//! |---|---|
//! | `Lexing.antt` | which tokens a text consists of, or the first byte where no token fits |
//! | `Grammar.antt` | which tokens spell which tree, case by case as in the grammar |
//! | `Expected.antt` | the stack of expected symbols, and how each token changes it |
//!
//! The stack of expected symbols works as in a predictive parser. It says at which token a text
//! stops being the beginning of a program. `Limits.antt` bounds nesting and the number of
//! operators.
//!
//! A text has only one list of tokens: [`lexer::tokens_are_one`].
//!
//! ```text
//! lex(alloc, b"x += 1;")?
//! // a name at 0 to 1, PlusAssign at 2 to 4, Number(1) at 5 to 6, a semicolon at 6 to 7
//! ```
#![tactic(auto)]

pub mod firsts;
pub mod lexer;
pub mod marks;
pub mod operators;
pub mod stop;
pub mod token;
pub mod tree;
