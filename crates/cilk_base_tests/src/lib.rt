//! Tests of schedules and of want of memory in them, and of the calls that the program doesn't make.
//!
//! Contracts are proved for all inputs, and `cilk_rows` compares whole calls of the program. So
//! these tests check what neither says: that many schedules leave what the serial run leaves, how
//! a run stops for memory, and that library calls of no command succeed while memory lasts.
//!
//! | Module | Tests |
//! |---|---|
//! | `views`, `joins` | products that give both sides back where a view may not grow; the pieces that a join keeps |
//! | `strands` | the parallel strands of a worked program |
//! | `calls` | texts of certificates in memory, products of views, runs shown by frames and by the order of events |
//! | `scripts` | scripts whose choices can't all be made: the first one, why, and how many |
//! | `settled`, `chance` | each program of `examples/` by 200 pseudo-random schedules |
//! | `refused` | runs that may be out of memory at any allocation |
//!
//! `playing` holds worked programs, `examples` and `gallery` those of `examples/`.
//!
//! ```text
//! assert_eq!(rt; as_serially(rt, alloc, LIST, ""), 200);     // a list by a `cilk_for`
//! ```
//!
//! A program with neither determinacy races (Feng and Leiserson 1997) nor view-read races (Lee and
//! Schardl 2015) must have the serial outcome by every schedule. A program with a race must have
//! another outcome by some of them, which shows that the schedules vary enough.
#![tactic(auto)]

#[cfg(test)]
mod calls;
#[cfg(test)]
mod chance;
#[cfg(test)]
mod examples;
#[cfg(test)]
mod gallery;
#[cfg(test)]
mod joins;
#[cfg(test)]
mod playing;
#[cfg(test)]
mod refused;
#[cfg(test)]
mod scripts;
#[cfg(test)]
mod settled;
#[cfg(test)]
mod strands;
#[cfg(test)]
mod views;
