//! The monoids of reducers, with proofs of their laws.
//!
//! A reducer is a variable that parallel strands update without a race, because each works on a
//! view of its own (Frigo, Halpern, Leiserson and Lewin-Berlin 2009). A new view begins as the
//! unit, and views are multiplied when strands join. If the multiplication is associative and the
//! unit is neutral, the product is the value of the serial run, however the run was scheduled. The
//! factors keep serial order, so the multiplication need not commute.
//!
//! Each [`monoid::Monoid`] proves these laws, so code that is generic in it can use them. Programs
//! name five ([`kind::MonoidKind`]):
//!
//! | Name | Monoid | View |
//! |---|---|---|
//! | `add` | [`number::Add`] | a word; the sum wraps |
//! | `min` | [`number::Least`] | a word |
//! | `max` | [`number::Greatest`] | a word |
//! | `append` | [`list::Append`] | a list of words |
//! | `affine` | [`affine::Affine`] | a map `y -> factor * y + offset` on words |
//!
//! [`fold::fold_pieces`] multiplies a list of views. The laws in [`range`] say what view a range of
//! a run's events gives, and when the views of two adjacent ranges multiply to the view of both.
//!
//! ```text
//! let mut evens = Append::unit(alloc);
//! Append::update(alloc, &mut evens, 2)?;
//! let four = Append::single(alloc, 4)?;
//! let both = Append::combine(alloc, evens, four)?;    // the list 2, 4
//! ```
#![tactic(auto)]

pub mod affine;
pub mod fold;
pub mod kind;
pub mod list;
pub mod monoid;
pub mod number;
pub mod range;
pub mod view;
