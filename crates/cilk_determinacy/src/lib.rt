//! The free machine, on which the frames of a Cilk program run in any order, and the theorem that a
//! program without races is determinate on it.
//!
//! A race detector for Cilk examines one serial run: if it has no race, every parallel run should
//! give the same result. This crate proves that, first of any program that is known only by its
//! behaviour: what a frame requests next, given what it has done and the answers it got. A frame
//! reads and writes cells, calls or spawns a child, syncs, uses reducers, and ends with a result.
//! Frames are named by their paths from the root, which no schedule changes.
//!
//! - The **serial run** executes one frame at a time: a child runs where it is started, and its
//!   parent continues once it has ended (`specs/Runs`, `specs/Serial`, `specs/Views`).
//! - The **free machine** lets any frame that isn't waiting make its next event, over one memory.
//!   The continuation of a spawn may be stolen at any moment. It then starts with empty views,
//!   which the sync multiplies back in serial order (Frigo, Halpern, Leiserson and Lewin-Berlin
//!   2009). A fault or an exceeded limit stops the run (`specs/Machine`, `specs/Costs`). There are
//!   no workers, deques or locks. A work-stealing runtime (Frigo, Leiserson and Randall 1998) has
//!   to show that its steps are steps of it.
//! - **Races** are those of `cilk_tree` (Feng and Leiserson 1997) and `cilk_peers` (Lee and Schardl
//!   2015), over all pairs of positions of the run's list of events (`specs/Traces`,
//!   `specs/MachineTheorem`).
//!
//! The `FrameEnv` files and `Steps` of `specs` say what the machine is for a program of the language
//! of `cilk_program`, and `specs/Theorem` what is proved of it there.
//!
//! **The theorem**: the program is well named, its serial run ends without a fault, and no two
//! positions of it have a determinacy race or a view-read race. Then each state that steps of the
//! machine lead to is a consistent cut of the serial run, and nothing has stopped it. Once the first
//! frame has ended, the result, globals, output and reducers are those of the serial elision.
//! `settle` of `cilk_checker` finds out whether it applies.
//!
//! It needs reducers to be set to words. Arithmetic brings its results back into words, so a view
//! that is no word would change when it is multiplied by an empty one.
//!
//! | Law | Statement |
//! |---|---|
//! | [`machine_laws::determinate`] | without races, all steps keep to consistent cuts of the serial run |
//! | [`machine_laws::step_is_consistent`] | the same for a single step, as a scheduler needs it |
//! | [`machine_laws::machine_has_progress`] | a frame that isn't waiting can make its next event |
//! | [`stretches::pieces_cover_stretches`] | a frame's views cover at most one stretch of the run |
//! | [`laws::race_free_programs_are_determinate`] | the theorem at the language |
//! | [`laws::step_keeps_cuts`] | a single step leads from a consistent cut to another |
//! | [`words::serial_runs_settle`] | the theorem for programs and inputs of the code, which have words only |
//! | [`env_laws`], [`pieces`], [`views`] | the machine at the language, and the views that frames hold |
//! | [`events`], [`positions`] | the list of a serial run's events, its tree, and its names |
//!
//! Another language would have the theorem by the lemmas at the head of `proofs/MachineTheorem`. It
//! has to show that its serial run is an `IsNestedSerialRun` (`specs/MachineTheorem`):
//!
//! ```text
//! use Rattle.cilk_determinacy.proofs.MachineTheorem.{race_free_kept, race_free_determinate, follows_determined}
//! ```
#![tactic(auto)]

pub mod env_laws;
pub mod events;
pub mod laws;
pub mod machine_laws;
pub mod pieces;
pub mod positions;
pub mod stretches;
pub mod views;
pub mod words;
