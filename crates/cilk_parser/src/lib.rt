//! The parser: from the bytes of a program text to its tree, from those of an input text to its
//! numbers, and from those of a script to its steps.
//!
//! A program text is at most 262,144 bytes. [`parse::parse`] cuts it into tokens with
//! `cilk_syntax::lexer`, then reads the tokens once, from left to right, by recursive descent. The
//! result is a [`Tree`](cilk_syntax::tree::Tree), or the first fault as a [`fault::TextFault`]. The
//! grammar is at `cilk_syntax::tree`. A text is refused at the first token that no program of the
//! grammar has there, or that is past a limit on nesting or operators.
//!
//! [`input::parse_input`] reads an input text: at most 65,536 numbers between spaces, tabs and line
//! ends. It makes an [`Input`](cilk_types::input::Input).
//!
//! [`script::read`] reads a schedule script, which chooses what the workers of a stepwise machine
//! do: one line for each [`script::Step`]. [`script_choices::Choices`] expands the steps into single
//! choices; `cilk_schedule` makes them.
//!
//! ```text
//! parse(alloc, b"int main(){return 0;}")?   // one item: a function
//! parse(alloc, b"int main(){return 0}")     // Err(TextFault::At(SyntaxErrorKind::Unexpected, 19))
//! read(alloc, b"run 1 4\nall\n")?           // two steps: worker 1 four times, then rounds of all
//! ```
//!
//! The results are defined in `specs`, apart from the code: `Texts.antt` (program texts),
//! `Refused.antt` (refused tokens), `Inputs.antt` (input texts) and `Scripts.antt` (scripts). The
//! laws in [`unique`] and [`script_laws`] say that these definitions leave no choice:
//!
//! | Law | Statement |
//! |---|---|
//! | [`unique::grammar_is_unambiguous`] | Tokens spell at most one program. |
//! | [`unique::reading_stops_once`] | Tokens are refused at one place at most, for one reason. |
//! | [`unique::text_is_cut_once`] | A text has one list of tokens or one lexical fault, at most. |
//! | [`unique::text_has_one_answer`] | A text has one program or one first fault, at most. |
//! | [`unique::input_has_one_answer`] | An input has one list of numbers or one fault, at most. |
//! | [`script_laws::script_is_one`] | A text is a script of one list of steps, or fails at one line. |
//! | [`script_laws::grammars_agree`] | A script's steps are those that its lines spell by the grammar. |
#![tactic(auto)]

pub mod assignments;
pub mod calls;
pub mod declarations;
pub mod expressions;
pub mod fault;
pub mod input;
mod items;
pub mod loops;
mod openers;
mod parameters;
pub mod parse;
pub mod script;
pub mod script_choices;
pub mod script_laws;
mod script_line;
pub mod statements;
pub mod unique;
