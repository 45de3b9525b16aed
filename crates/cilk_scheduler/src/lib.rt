//! The state of a stepwise work-stealing scheduler, and the operations on its parts.
//!
//! A run is driven by a list of [`choice::Choice`]s. Each names a worker, which either continues
//! the frame that it holds or steals a continuation that another worker offers (Frigo, Leiserson
//! and Randall 1998). No threads are involved: one value, a [`scheduler::Scheduler`], holds all
//! frames, cells and workers of the run with its events so far, and a choice changes that value by
//! one event at most.
//!
//! A spawn works as in Cilk: the worker continues with the child and offers the parent's
//! continuation. A thief starts with no reducer views. The child's views are then one piece of the
//! parent's sync block, and the block's [`cilk_join::join::Join`] multiplies the pieces in serial
//! order (Frigo, Halpern, Leiserson and Lewin-Berlin 2009).
//!
//! | Part | Calls |
//! |---|---|
//! | state | [`scheduler::Scheduler`], [`frame_state::FrameState`], [`frame_state::Worker`] |
//! | next event of a frame | [`asking::go_on`], [`asking::refusal`] for the fault in its place |
//! | that event by names | [`cursors::next_ask_is_named`], a law |
//! | cells and reducers | [`cells::read`], [`cells::write`], the functions of [`reducers`] |
//! | call and spawn | the functions of [`invoking`], [`beginning::begin`] |
//! | steal | [`offers::locate`], [`stealing::await_last`] |
//! | sync and end | [`arriving::arrive`], [`ending::bring`], [`ending::take_back`] |
//! | record of events | [`journal::note`] |
//!
//! ```text
//! go_on(&code, &input, &mut state.frames, frame, &mut state.asked);      // its next event
//! if let Some(SmallAsk::Read(place)) = state.asked.small_ask() {
//!     let cell = cell_at(state.frames.as_slice(), frame, *place);
//!     let event = read(&mut state.frames, state.cells.as_slice(), frame, cell);
//!     // into room that was reserved in the journal
//!     state.ticks = note(&mut state.frames, &mut state.journal, state.ticks, frame as u32, event);
//! }
//! ```
//!
//! `cilk_schedule` puts these calls together into whole choices. The laws, in [`laws`], [`acting`],
//! [`noting`], [`orders`] and the `laws_of_..` modules, are contracts of empty functions. They
//! relate the state to the free machine of `cilk_determinacy`, where any frame that isn't waiting
//! may make its next event. The relation is `Shows` of `specs/Schedulers.antt`, and
//! `specs/WorkerTables.antt` has the rules of a choice by names that no schedule changes.
#![tactic(auto)]

pub mod acting;
pub mod arriving;
pub mod asking;
pub mod beginning;
pub mod cells;
pub mod choice;
pub mod cursors;
pub mod ending;
pub mod frame_state;
pub mod frame_states;
pub mod invoking;
pub mod journal;
pub mod laws;
pub mod laws_of_blocks;
pub mod laws_of_ends;
pub mod laws_of_openings;
pub mod laws_of_parts;
pub mod laws_of_starts;
pub mod laws_of_stops;
pub mod noting;
pub mod offer_list;
pub mod offers;
pub mod orders;
pub mod own_reducers;
pub mod reducers;
pub mod scheduler;
pub mod stealing;
pub mod tally;
pub mod workers;
