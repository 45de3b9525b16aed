//! Name resolution: from the syntax tree of a program text to a program in which each name is
//! replaced by what it refers to.
//!
//! Scopes are lexical. A function is known in the whole text. Any other name is known from its
//! declaration to the end of its scope, and an inner name hides an outer one. Each function and
//! each body of a `cilk_for` has a frame of its own, so a variable resolves to a global cell, or to
//! a cell of the frame that is n static links up: one link for each loop body between its use and
//! its declaration.
//!
//! [`resolve::resolve`] reads the signatures of all functions, enters the functions in the
//! outermost scope, resolves the items in order, and looks for `int main()`. It continues past a
//! fault and keeps the first one: by place, and at one place the one with the lowest number.
//!
//! | Item | Meaning |
//! |---|---|
//! | [`resolve::resolve`] | Resolves a tree, or returns its first fault. |
//! | [`kind::NameErrorKind`] | The kinds of faults, with numbers from 111 to 119. |
//! | [`table::Table`] | The scopes at a place of the text. |
//! | [`sights`] | Look-ups of variables, arrays, reducers and functions. |
//! | [`limits`] | Limits on functions, parameters, cells and reducers. |
//! | [`resolution`] | Laws: a tree without faults resolves to exactly one program. |
//!
//! The program keeps the places of the text that its statements and expressions come from. No
//! contract speaks of them.
//!
//! `specs/Resolution.antt` defines which program a tree resolves to, case by case, and
//! `specs/Misnamings.antt` all faults of a tree.
//!
//! ```text
//! let tree = parse(alloc, b"int main(){return x;}")?;
//! resolve(alloc, &tree)                      // Err(NameFault::At(NameErrorKind::Unknown, 18))
//! ```
#![tactic(auto)]

mod calls;
mod expressions;
pub mod fault;
mod headings;
mod items;
pub mod kind;
pub mod limits;
pub mod operators;
pub mod resolution;
pub mod resolve;
mod scene;
pub mod sights;
pub mod signature;
mod statements;
pub mod table;
