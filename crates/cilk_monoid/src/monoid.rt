//! The trait of a reducer's monoid.

ghost use Rattle.std.specs.Prelude.{◌≡◌, ◌+◌, ◌<◌, ◌≤◌, ◌^◌, ℕ, IsOk, IfOk, IfErr, OnOk, OnErr};
ghost use Rattle.cilk_monoid.specs.Laws.{MonoidStructure, IsLawful};
ghost use Rattle.cilk_monoid.specs.Values.{ViewValue};

use std::alloc::{AllocError, Global};

/// A monoid over the views of a reducer.
///
/// Contracts speak of a view's `value`, and of the room that it has `reserved` for products. An
/// implementation names the monoid of the values, its `structure`. It proves that the members
/// satisfy the laws (`lawful`) and that the value of each view is a member.
///
/// Calls that may allocate receive the allocator and fail if memory runs out. Then a borrowed view
/// keeps its value, and consumed views are returned.
pub trait Monoid: Drop {
    /// A view, as a worker holds it during a run.
    type View: Drop;

    // The monoid of the views' values.
    ghost structure: { MonoidStructure ViewValue };

    // The values that views may have.
    ghost IsMember: { ViewValue → Type 0 };

    // The value of a view.
    ghost value: { Self.View → ViewValue };

    // The total size of right sides that the view can be multiplied by without allocating.
    ghost reserved: { Self.View → ℕ };

    /// Makes the unit, without allocating.
    fn unit(alloc: Global) -> Self::View
        ensures { value result ≡ structure.unit };

    /// Makes the view of one update.
    fn single(alloc: Global, x: i64) -> Result<Self::View, AllocError>
        ensures { IfOk result (λ v. value v ≡ structure.single x) };

    /// Multiplies the view from the right by the view of one update.
    fn update(alloc: Global, view: &mut Self::View, x: i64) -> Result<(), AllocError>
        ensures ok { OnOk result (value view.new ≡ structure.combine (value view.old) (structure.single x)) }
        ensures err { OnErr result (value view.new ≡ value view.old) };

    /// Multiplies two views, the left one first. Costs a copy of the right side, and growth of the
    /// left one if it has no room.
    fn combine(
        alloc: Global,
        left: Self::View,
        right: Self::View,
    ) -> Result<Self::View, (Self::View, Self::View)>
        ensures ok { IfOk result (λ v. value v ≡ structure.combine (value left) (value right)) }
        ensures err { IfErr result (λ p. (value p.0 ≡ value left) × (value p.1 ≡ value right)) }

        // It succeeds if enough room is reserved, and uses up at most the right side's size of it.
        ensures succeeds { structure.size (value right) ≤ reserved left → IsOk result }
        ensures room { IfOk result (λ v. reserved left ≤ reserved v + structure.size (value right)) };

    /// Returns the number that a program reads.
    fn number(view: &Self::View) -> i64
        ensures { result ≡ structure.number (value view.now) };

    /// Returns the room that the view needs as the right side of a product.
    fn size(view: &Self::View) -> usize
        ensures value { result ≡ structure.size (value view.now) }
        ensures small { result < 2 ^ 63 };

    /// Reserves room: then products with right sides of at most this size in total don't allocate.
    fn room(alloc: Global, view: &mut Self::View, size: usize) -> Result<(), AllocError>
        ensures value { value view.new ≡ value view.old }
        ensures room { OnOk result (size ≤ reserved view.new) }
        ensures kept { reserved view.old ≤ reserved view.new }
        ensures succeeds { size ≤ reserved view.old → IsOk result };

    // The members form a monoid.
    ghost lawful: { IsLawful structure IsMember };

    // The value of each view is a member.
    ghost members: { (v : Self.View) → IsMember (value v) };
}
