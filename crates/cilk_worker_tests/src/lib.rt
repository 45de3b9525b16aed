//! Tests of parallel runs: the pool of workers in real threads, and its racks and join boxes alone.
//!
//! A worker offers the continuation of each spawn on its rack and runs the child. Idle workers
//! steal the oldest task of another worker (Frigo, Leiserson and Randall 1998). The pieces of a
//! stolen block meet in a join box, which puts them into the order of the serial run (Frigo,
//! Halpern, Leiserson and Lewin-Berlin 2009). So each run must have the outcome of the serial one,
//! whatever was stolen.
//!
//! [`cases`] holds programs with their expected outcomes. [`runs`] runs each of them 100 times by
//! 1, 2, 4 and 8 workers, and two of them by 9 and 64. A gate sees each strand as it begins. One
//! gate counts that no strand begins twice. The other holds a strand until another has begun, which
//! shows that strands do run in parallel. A run that doesn't end within 30 seconds fails its test.
//!
//! | Module | Tests |
//! |---|---|
//! | [`runs`] | programs on their own inputs, and on others that follow or leave the plan |
//! | [`holds`], [`gates`] | strands that wait for others |
//! | [`racks`] | tasks from both ends of a rack |
//! | [`boxes`] | pieces that arrive at a join box out of order |
//! | [`thieves`] | a worker that steals the only task, and a worker's end |
//! | [`refused`] | a second run on the same plan after one that is out of memory |
//! | [`works`], [`waits`] | support: workers without a pool, time limits |
//! | [`texts`], [`shown`] | support: accepted programs, outcomes as lines |
//!
//! ```text
//! let left = left(rt, alloc, &plan, &input, 4, &gate)?;
//! assert!(rt; left.as_str() == "cells 7\nresult 14\n");
//! ```
#![tactic(auto)]

#[cfg(test)]
mod boxes;
#[cfg(test)]
mod cases;
#[cfg(test)]
mod gates;
#[cfg(test)]
mod holds;
#[cfg(test)]
mod racks;
#[cfg(test)]
mod refused;
#[cfg(test)]
mod runs;
#[cfg(test)]
mod shown;
#[cfg(test)]
mod texts;
#[cfg(test)]
mod thieves;
#[cfg(test)]
mod waits;
#[cfg(test)]
mod works;
