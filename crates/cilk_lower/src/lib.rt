//! A compiler from resolved Cilk programs to code for a stack machine.
//!
//! A frame must stop at each of its requests and continue once it has the answer. A recursion over
//! the syntax tree can't stop in the middle. So each body becomes code for a machine with a stack
//! of operands (McCarthy and Painter 1967), and the state of a frame is a place in the code, a few
//! operands and its result. Each instruction uses at most two ticks and makes at most one request.
//!
//! The code of `while (x < 3) x = x + 1;`:
//!
//! ```text
//!  0 Tick                  7 ApplyNumber Add 1
//!  1 Load x                8 Apply Add
//!  2 ApplyNumber Less 3    9 Store x
//!  3 Apply Less           10 Load x
//!  4 JumpIfZero 9         11 ApplyNumber Less 3
//!  5 Tick                 12 Apply Less
//!  6 Load x               13 JumpBackUnlessZero 8
//! ```
//!
//! The condition stands twice, so that a turn has one jump and not two.
//! An `ApplyNumber` skips the `Apply` that follows. That one remains as the place of a fault of the
//! operator: a fault of the number has the place before it.
//!
//! The bodies of all functions and loops are in one list, each from its [`code::EntryPoint`] on. A
//! call or spawn refers to a [`code::Site`] for its function and arguments. The frame of a
//! `cilk_for` runs the body if it has one turn. Otherwise it spawns the first half of its turns and
//! calls the second.
//!
//! | Item | Purpose |
//! |---|---|
//! | [`lower::lower`] | compiles a program, in linear time |
//! | [`code::Code`], [`code::Instr`] | the code; one instruction |
//! | [`layout::Layout`] | opening values, and the cells and reducers of each frame |
//! | [`laws`] | what is true of all code |
//!
//! The contract of `lower` ties code to meaning: for any callee, input, answers and ticks, the
//! machine (`specs/Machine`) makes the same next request as the program's frame (`specs/Behaves`).
#![tactic(auto)]

mod bodies;
pub mod code;
mod emitter;
mod expressions;
pub mod laws;
pub mod layout;
pub mod lower;
mod plain;
mod put;
mod simple;
