//! Decides whether hidden numbers of the input decide anything in a serial run. If none does, this one
//! run settles every parallel run, on every input that differs from its own in hidden numbers alone.
//!
//! A product of two matrices makes the same events for all numbers in them, once their size is known:
//! which cells it reads, what it spawns and where it syncs depends on the size alone. Such programs are
//! called *oblivious* (Goldreich and Ostrovsky 1996, of memory accesses). Whether two positions race,
//! and so whether a run settles the parallel ones, depends on the kinds of events alone, not on their
//! values. So what one run shows holds for all of these inputs.
//!
//! **Marks.** Each word has a mark: true if it may differ on another such input. An input number is
//! marked if it is hidden, and a word is marked if it is computed from a marked one. Marks go along with
//! words: to cells and back, to arguments and results, into the views of reducers (Denning and Denning
//! 1977 call these explicit flows). A word *decides* if it is a condition, the left side of `&&` or
//! `||`, an index, a divisor, a place in `input(..)`, or a bound of a `cilk_for`. Where a marked word
//! would decide, the answer is no. Where none ever does, the frames of both runs execute the same
//! instructions, so nothing flows by the way that a program takes (no implicit flows): that is the
//! induction.
//!
//! ```text
//! int main() {
//!     int x = input(0);
//!     print(x * input(1));        // decides nothing
//!     if (x > 9) { print(0); }    // input 0 decides
//!     return 0;
//! }
//! ```
//!
//! With input 1 hidden this run is oblivious, and with input 0 hidden it isn't:
//!
//! ```text
//! let code = lower(alloc, &program)?;
//! let (_, trace) = run(alloc, &program, &input)?;
//! let events = trace.as_slice();
//! is_oblivious(alloc, &program, &code, &input, events, &[false, true])?  // true
//! is_oblivious(alloc, &program, &code, &input, events, &[true, false])?  // false
//! ```
//!
//! **The pass.** The serial run is made as ever. Then [`run::is_oblivious`] goes over its events once
//! more: each frame is run again by its cursor, which gets its answers from the events, with a mark
//! beside each word ([`marks::Marks`], [`step::step_openly`]). Cells and reducers come from the events
//! by number, so the pass needs no store, only a mark for each ([`memory::MarkedMemory`]).
//! [`watch::Watch`] keeps the frames that wait. The cost is linear in the ticks of the run.
//!
//! **What it means.** A frame's request is *open* (`IsOpen`) if the frame makes the same one on each
//! alike input, but for marked words, after alike answers. A serial run is oblivious (`IsObliviousRun`)
//! if all its requests are open. Both are said by what frames do, without instructions or analysis. It
//! is enough, not needed: `x * 0` counts as marked, and so does a condition whose sides are equal.
//! Nothing is said of inputs with more or fewer numbers, nor that outcomes are equal.
//!
//! | Call | Result |
//! |---|---|
//! | [`run::is_oblivious`] | whether no hidden number decides a serial run; false says nothing |
//! | [`run::settles_every`] | the same for a run without a race: each alike input is settled |
//! | [`laws::oblivious_runs_have_twins`] | each alike input has a run with the same events but for values |
//! | [`laws::oblivious_runs_settle_every_input`] | each alike input is settled |
//! | [`laws::oblivious_runs_race_on_every_input`] | it has the same first race; also of views |
//! | [`laws::oblivious_runs_stop_on_every_input`] | it stops by the same fault |
//! | [`laws::instructions_are_oblivious`] | one instruction |
//! | [`worked::worked_programs`] | a product that is oblivious, and a branch that isn't |
#![tactic(auto)]

pub mod laws;
pub mod marks;
pub mod memory;
pub mod run;
pub mod step;
pub mod watch;
pub mod worked;
