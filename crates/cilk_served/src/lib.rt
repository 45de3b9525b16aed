//! Test support: calls of the tool over files and streams in memory.
//!
//! A call of [`cilk_commands::serve`] gets its files, its standard input and both output streams as
//! arguments. The tests pass values in memory for all of them, so they need no disk and no process.
//! They can also let any read or write fail, count the files that are read, and stop a stream at a
//! given byte.
//!
//! [`served`] has a folder of four texts, readers and writers that fail at a chosen point, and
//! functions that make one call and return what it showed.
//!
//! | Item | Purpose |
//! |---|---|
//! | [`served::Folder`] | files `program`, `input`, `certificate`, `script`; counts the reads |
//! | [`served::Broken`], [`served::Torn`] | readers that fail |
//! | [`served::Short`] | a writer with room for a number of bytes |
//! | [`served::shown`], [`served::checked_in_parts`] | one call, with its status and output |
//! | [`laws::forms_give_orders`], [`laws::folders_are_known`] | the orders of command lines; the known texts |
//!
//! ```text
//! let ended = shown(alloc, &["run", "program"], text, b"", &mut Broken);
//! assert!(rt; ended.is(0, "result 3\n", ""));
//! ```
#![tactic(auto)]

pub mod laws;
pub mod served;
