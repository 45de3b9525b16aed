//! Frames that run one request at a time.
//!
//! A frame never touches memory, views or output. It makes a request, and whoever runs it answers:
//! a value for a read, nothing for most other events. So a scheduler only decides which frame to
//! step next. Between two steps, a frame is a [`cursor::Cursor`]: its arguments, its place in the
//! code, its operands and its result. [`stepping::step_into`] runs it from an answer to the next
//! request. A step allocates nothing, since the room for operands is allocated with the cursor. It
//! always ends, since each turn of a loop uses a tick.
//!
//! An [`activation::Activation`] adds the frame's cells and reducers. By static links (Landin
//! 1964), the body of a `cilk_for` sees those of the frames around it. A place is found in as many
//! steps as it has links.
//!
//! | Item | Purpose |
//! |---|---|
//! | [`cursor::Cursor`] | a frame: `root`, `function` and `turns` make it |
//! | [`stepping::step_into`], [`stepping::step`] | run to the next request |
//! | [`asked::AskSlot`], [`small_ask::SmallAsk`] | the last request, kept without copies |
//! | [`beginnings`], [`places`] | make activations; find cells and reducers |
//! | [`call_stack::CallStack`] | a running frame and the frames that wait for it |
//! | [`outcome::outcome`] | the outcome of a run that has ended |
//!
//! ```text
//! let mut cursor = Cursor::root(alloc, &code)?;
//! let mut asked = AskSlot::new();              // the frame begins
//! step_into(&code, &input, &mut cursor, Answer::Done, &mut left, &mut asked);
//! match asked.small_ask() {
//!     Some(SmallAsk::Read(place)) => ..,       // it waits for the value
//!     Some(SmallAsk::End(result)) => ..,       // it has ended
//!     ..
//! }
//! ```
//!
//! The contracts say that a cursor follows its frame's behaviour (`specs/Following.antt`), and that
//! an activation sees what its scope says (`HasScope` in `specs/Sight.antt`).
#![tactic(auto)]

pub mod activation;
pub mod asked;
pub mod beginnings;
pub mod call_stack;
pub mod cursor;
pub mod halves;
pub mod moves;
pub mod operands;
mod operators;
pub mod outcome;
pub mod places;
pub mod small_ask;
pub mod stepping;
