//! The words that the threads of a parallel run share, and the pieces of the run that workers hold.
//!
//! A program runs in parallel along a plan ([`cilk_tree::plan::Plan`]): the events of a serial run
//! in which no two accesses race, without their values. A [`yard::Yard`] is the memory of one such
//! run: an atomic word for each cell, one for each continuation and one for the run's end. A
//! [`yard::Segment`] is a range of the run's positions that one worker has done; words are read and
//! written only through a segment. Segments never overlap, and each step on a word that comes
//! before a done one is done too. So a load returns the value that the run's event order has there,
//! whatever other threads do, and a continuation is taken at most once.
//!
//! A [`piece::Piece`] is a segment with the reducer views of its events. A worker's piece grows by
//! one event at a time. A thief begins with an empty piece, and pieces that meet at a `sync` are
//! joined in serial order (Frigo, Halpern, Leiserson and Lewin-Berlin 2009). Whatever is stolen,
//! the piece of the whole run has the views of all events in serial order.
//!
//! | Call | Does |
//! |---|---|
//! | [`yard::Yard::new`] | makes the words of a run on an input, and the first segment |
//! | [`piece::Piece::load`], [`piece::Piece::store`] | a read or a write of a cell |
//! | [`piece::Piece::offer`], [`piece::Piece::take`] | offers a continuation, or takes one |
//! | [`piece::Piece::update`] and others | an event of a reducer |
//! | [`piece::Piece::join`], [`piece::Piece::join3`] | make one piece of adjoining ones |
//! | [`yard::Yard::globals`] | the last values of the cells, after the whole run |
//!
//! ```text
//! let (yard, segment) = Yard::new(alloc, &plan, &input)?;
//! let mut piece = Piece::new(alloc, &yard, segment, &reducers);
//! piece.store(&yard, 0, 7);                                 // the next event writes 7 to cell 0
//! piece.update(alloc, &yard, list, MonoidKind::Append, 7)?; // the next one updates a list
//! let ticket = piece.offer(&yard);                          // the next one is a spawn
//! ```
#![tactic(auto)]

pub mod key;
pub mod laws;
pub mod piece;
pub mod piece_laws;
pub mod reducers;
pub mod taken;
pub mod view;
mod views;
pub mod words;
pub mod yard;
