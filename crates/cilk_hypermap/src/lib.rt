//! Hypermaps: the reducer views that belong to one piece of a parallel run.
//!
//! In a parallel run each piece of work updates reducer views of its own, so an update needs no
//! lock (Frigo, Halpern, Leiserson and Lewin-Berlin 2009). A hypermap maps each reducer to its
//! view. It is empty when its piece begins, and a view is made when its reducer is first touched,
//! so an absent view counts as the monoid's unit. Where two pieces join, their hypermaps are
//! merged: for each reducer the left view is multiplied by the right one, in serial order.
//!
//! | Type | Holds |
//! |---|---|
//! | [`views::Views`] | the views of one monoid, whichever it is |
//! | [`hypermap::Hypermap`] | the views of the five monoids of programs, and the ordered output |
//!
//! A hypermap's calls:
//!
//! - `create`, `set`, `update`, `value` and `print` do what the reducer events of a run do.
//! - `retire` drops a view, and `take` moves it out as the reducer's last value.
//! - `merge` multiplies two hypermaps, and `merge3` three. No view is cloned.
//! - `room` reserves the memory that `merge3` needs, so that `merge3` can't fail.
//!
//! ```text
//! let mut left = Hypermap::new(alloc);
//! left.print(alloc, 1)?;
//! let mut right = Hypermap::new(alloc);
//! right.print(alloc, 2)?;
//! match Hypermap::merge(alloc, left, right) {
//!     Ok(both) => ..,             // the output is 1, 2
//!     Err((left, right)) => ..,   // out of memory: both come back
//! }
//! ```
#![tactic(auto)]

pub mod hypermap;
pub mod views;
