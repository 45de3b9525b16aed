//! The messages of the tool: explanations of faults and refusals, and the words of the command
//! line.
//!
//! The tool's own lines name a fault by its number and a byte of the text. This crate turns them
//! into a line and a column, the line of source with a mark below the place, the reason, and a hint
//! if the mistake is a common one. Hints are found by looking at the tokens around the place. They
//! know C, C++, Cilk Plus and OpenCilk, since most mistakes are constructs of those that this
//! language lacks. After the hint come the other such constructs of the text, each at its first
//! line, so that one call names all that their tokens alone give away.
//!
//! ```text
//! fib.c:9:12: error 103: no text of the language continues like this
//!     return fib(n - 1) + fib(n - 2);
//!               ^
//! hint: a call stands alone or as the whole right side of an assignment: `x = f(a);`
//! also line 3: `double`: `int` is the only type; count in thousandths, say
//! ```
//!
//! Nothing here judges a text: the parser or the checker has found the place.
//!
//! | Call | Result |
//! |---|---|
//! | [`report::of_text`] | the message after the line of a fault in a text |
//! | [`report::of_line`] | the message after a refusal of a certificate, or a fault of a run |
//! | [`report::of_script`] | the message after a refused script |
//! | [`report::of_number`], [`report::of_all`] | the text of `explain` |
//! | [`reasons::line_of`] | a line of the meaning of a number |
//! | [`sentence::say`] | a sentence with gaps, and the parts that fill them |
//! | [`sites::enclosing`] and others | the surroundings of a token |
//! | [`words::read`] | the command line as an order: `run`, `certify`, `check`, `play`, `settle` or `judge` |
//! | [`threads_words::read`], [`check_words::read_check`] | the same of `threads`, and of `check` with `--helpers` |
//! | [`asked`], [`batch`], [`flags`] | `measure`, `schedule`, `settle` of several; words that add a text |
//! | [`about::answer_about`] | the answer to a command line about the tool: its help, a number, its version |
//! | [`about::requests_are_one`] | such a command line requests exactly one of six things |
//! | [`raced::Raced`] | the race of a trace, by a table of sites ([`table::Sites`]) |
//!
//! ```text
//! match read(alloc, &["run", "fib.c"])? {
//!     Order::Run { program: Origin::File(path), input: None } => ..
//! ```
//!
//! [`words::read`] uses `clap`. Its contract says which words are which order, in terms of clap's
//! model of simple commands.
#![tactic(auto)]

pub mod about;
pub mod around;
pub mod asked;
mod at_hand;
pub mod batch;
mod certain;
pub mod check_words;
pub mod claim;
mod cleaned;
pub mod excerpt;
pub mod flags;
mod forms;
mod further;
mod gone;
pub mod help;
pub mod hints;
mod kinds;
mod marks;
pub mod named;
pub mod numbered;
mod numbers;
pub mod place;
pub mod positions;
pub mod raced;
pub mod reasons;
pub mod report;
mod rules;
pub mod sentence;
mod sentences;
mod site;
pub mod sites;
pub mod sizes;
mod spelling;
pub mod table;
pub mod threads_words;
pub mod tokens;
mod unended;
mod uses;
mod vocabulary;
pub mod words;
