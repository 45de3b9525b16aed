//! The views of one monoid.
//!
//! A merge has two steps. The first reserves room in the left map for each view of the right one,
//! and may run out of memory. The second moves the right views over, and can't fail.

ghost use Rattle.std.specs.Prelude.{◌≡◌, ◌+◌, ◌<◌, ◌≤◌, ◌^◌, ℕ, if◌then◌else◌, cond, [], length, slice_get, Option, None, Some, IsSome, IfSome, IfNone, IsOk, OnOk, OnErr, IfOk, IfErr, ◌⊎◌};
ghost use Rattle.std.specs.Option.{option_map, option_copied};
ghost use Rattle.std.specs.Map.Iter.{deref_pair};
ghost use Rattle.cilk_types.specs.declared.event.Instance.{Instance};
ghost use Rattle.cilk_monoid.specs.Ranges.{same_instance};
ghost use Rattle.cilk_hypermap.specs.Views.{entries, found, merged, output, view_at, value_at, room_at, size_at, ChangesAt, KeepsViews, KeepsValues, FillsIn, HasRoom};

use cilk_monoid::monoid::Monoid;
use cilk_types::event::Instance;
use indexmap::IndexMap;
use std::alloc::{AllocError, Global};
use std::mem;

/// The views of one monoid, by reducer instance.
///
/// Contracts see a finite map from instances to the values of their views (`view_at`), and how much
/// room each view has reserved (`room_at`). A look-up costs one hash. When a call runs out of
/// memory, no view changes its value.
pub struct Views<M: Monoid> {
    // None until the first view is put, since most maps never have one.
    views: Option<Box<IndexMap<Instance, M::View>>>,
}

// A separate function, so that a proof follows one call where views are dropped.
impl<M: Monoid> Drop for Views<M> {
    fn drop(self) {
        let Views { views: _views } = self;
    }
}

impl<M: Monoid> Views<M> {
    /// Returns a map without views.
    pub fn new(_alloc: Global) -> Self
        ensures { (i : Instance) → view_at M.value result i ≡ None }
    {
        Views { views: None }
    }

    // Takes the memory of the map itself, before its first view.
    fn make(&mut self, alloc: Global) -> Result<(), AllocError>
        ensures kept { entries self.new ≡ entries self.old }
        ensures made { OnOk result (IsSome self.new.views) }
        ensures succeeds { IsSome self.old.views → IsOk result }
    {
        if self.views.is_none() {
            self.views = Some(Box::new(alloc, IndexMap::new(alloc))?);
        }
        Ok(())
    }

    // The view of the instance.
    fn find(&self, instance: Instance) -> Option<&M::View>
        ensures { option_copied result ≡ found self.now instance }
    {
        match &self.views {
            Some(views) => views.get(&instance),
            None => None,
        }
    }

    // Puts a view at the instance.
    fn put(&mut self, alloc: Global, instance: Instance, view: M::View) -> Result<(), AllocError>
        ensures ok { OnOk result (ChangesAt M.value self.old self.new instance (Some (M.value view))) }
        ensures view { OnOk result ((j : Instance) → found self.new j ≡ cond (same_instance instance j) (Some view) (found self.old j)) }
        ensures err { OnErr result ((j : Instance) → found self.new j ≡ found self.old j) }
    {
        self.make(alloc)?;
        let Some(views) = &mut self.views else {
            unreachable!()
        };
        views.insert(instance, view)?;
        Ok(())
    }

    /// Sets the instance's view to the unit.
    pub fn create(&mut self, alloc: Global, instance: Instance) -> Result<(), AllocError>
        ensures ok { OnOk result (ChangesAt M.value self.old self.new instance (Some M.structure.unit)) }
        ensures err { OnErr result (KeepsViews M.value self.old self.new) }
    {
        self.put(alloc, instance, M::unit(alloc))
    }

    /// Sets the instance's view to that of the single number `x`.
    pub fn set(&mut self, alloc: Global, instance: Instance, x: i64) -> Result<(), AllocError>
        ensures ok { OnOk result (ChangesAt M.value self.old self.new instance (Some (M.structure.single x))) }
        ensures err { OnErr result (KeepsViews M.value self.old self.new) }
    {
        self.put(alloc, instance, M::single(alloc, x)?)
    }

    /// Multiplies the instance's view by `x` from the right. An absent view counts as the unit.
    pub fn update(&mut self, alloc: Global, instance: Instance, x: i64) -> Result<(), AllocError>
        ensures ok { OnOk result (ChangesAt M.value self.old self.new instance (Some (M.structure.combine
            (value_at M.structure M.value self.old instance) (M.structure.single x)))) }
        ensures err { OnErr result (KeepsViews M.value self.old self.new) }
    {
        self.make(alloc)?;
        let Some(views) = &mut self.views else {
            unreachable!()
        };
        if let Some(view) = views.get_mut(&instance) {
            return M::update(alloc, view, x);
        }
        let mut view = M::unit(alloc);
        M::update(alloc, &mut view, x)?;
        self.put(alloc, instance, view)
    }

    /// Returns the number of the instance's view. If there is no view, the unit is put there first.
    pub fn value(&mut self, alloc: Global, instance: Instance) -> Result<i64, AllocError>
        ensures number { IfOk result (λ n. n ≡ M.structure.number (value_at M.structure M.value self.old instance)) }
        ensures ok { OnOk result (ChangesAt M.value self.old self.new instance (Some
            (value_at M.structure M.value self.old instance))) }
        ensures err { OnErr result (KeepsViews M.value self.old self.new) }
    {
        if let Some(view) = self.find(instance) {
            return Ok(M::number(view));
        }
        let view = M::unit(alloc);
        let number = M::number(&view);
        self.put(alloc, instance, view)?;
        Ok(number)
    }

    /// Updates the ordered output.
    pub fn print(&mut self, alloc: Global, x: i64) -> Result<(), AllocError>
        ensures ok { OnOk result (ChangesAt M.value self.old self.new output (Some (M.structure.combine
            (value_at M.structure M.value self.old output) (M.structure.single x)))) }
        ensures err { OnErr result (KeepsViews M.value self.old self.new) }
    {
        self.update(alloc, Instance::OUTPUT, x)
    }

    /// Removes and returns the instance's view, if there is one.
    pub fn retire(&mut self, instance: Instance) -> Option<M::View>
        ensures view { option_map M.value result ≡ view_at M.value self.old instance }
        ensures views { ChangesAt M.value self.old self.new instance None }
    {
        match &mut self.views {
            Some(views) => views.swap_remove(&instance),
            None => None,
        }
    }

    // Reserves room at the instance for right sides of at most this size together. Where there is
    // no view, it puts the unit there.
    fn reserve(&mut self, alloc: Global, instance: Instance, size: usize) -> Result<(), AllocError>
        ensures views { FillsIn M.structure M.value (λ j. instance ≡ j) self.old self.new }
        ensures kept { (j : Instance) → room_at M.reserved self.old j ≤ room_at M.reserved self.new j }
        ensures present { OnOk result (IsSome (view_at M.value self.new instance)) }
        ensures room { OnOk result (size ≤ room_at M.reserved self.new instance) }
        ensures succeeds { IsSome (view_at M.value self.old instance) → size ≤ room_at M.reserved self.old instance
            → IsOk result }
    {
        self.make(alloc)?;
        let Some(views) = &mut self.views else {
            unreachable!()
        };
        if let Some(view) = views.get_mut(&instance) {
            return M::room(alloc, view, size);
        }
        let mut view = M::unit(alloc);
        M::room(alloc, &mut view, size)?;
        self.put(alloc, instance, view)
    }

    // Multiplies the instance's view by a view from the right. There is room for the product.
    fn multiply(&mut self, alloc: Global, instance: Instance, right: M::View)
        requires present { IsSome (view_at M.value self.old instance) }
        requires room { M.structure.size (M.value right) ≤ room_at M.reserved self.old instance }
        ensures views { ChangesAt M.value self.old self.new instance (Some (M.structure.combine
            (value_at M.structure M.value self.old instance) (M.value right))) }
        ensures room { (j : Instance) → room_at M.reserved self.old j ≤ room_at M.reserved self.new j
            + (if same_instance instance j then M.structure.size (M.value right) else 0) }
    {
        let Some(views) = &mut self.views else {
            unreachable!()
        };
        let slot = views.get_mut(&instance).unwrap();
        let left = mem::replace(slot, M::unit(alloc));
        match M::combine(alloc, left, right) {
            Ok(product) => *slot = product,
            Err(_) => unreachable!(),
        }
    }

    // The size of the instance's view, 0 where there is none.
    fn size_of(&self, instance: Instance) -> usize
        ensures value { result ≡ size_at M.structure M.value self.now instance }
        ensures small { result < 2 ^ 63 }
    {
        match self.find(instance) {
            Some(view) => M::size(view),
            None => 0,
        }
    }

    // How many views there are.
    fn len(&self) -> usize
        ensures { result ≡ length (entries self.now) }
    {
        match &self.views {
            Some(views) => views.len(),
            None => 0,
        }
    }

    // The view at a place, and its instance.
    fn entry(&self, place: usize) -> Option<(&Instance, &M::View)>
        ensures entry { option_map deref_pair result ≡ slice_get (entries self.now) place }
        ensures value { IfSome result (λ p. found self.now p.0.now ≡ Some p.1.now) }
        ensures there { place < length (entries self.now) → IsSome result }
    {
        match &self.views {
            Some(views) => views.get_index(place),
            None => None,
        }
    }

    // Takes the last view out, with its instance.
    fn pop(&mut self) -> Option<(Instance, M::View)>
        ensures view { IfSome result (λ p. found self.old p.0 ≡ Some p.1) }
        ensures rest { IfSome result (λ p. (j : Instance) → found self.new j ≡ cond (same_instance p.0 j) None (found self.old j)) }
        ensures fewer { IsSome result → length (entries self.new) < length (entries self.old) }
        ensures none { IfNone result (entries self.old ≡ []) }
        ensures kept { IfNone result (entries self.new ≡ []) }
    {
        match &mut self.views {
            Some(views) => views.pop(),
            None => None,
        }
    }

    // Puts the unit wherever `later` has a view and these have none.
    fn fill(&mut self, alloc: Global, later: &Self) -> Result<(), AllocError>
        ensures views { FillsIn M.structure M.value (λ j. IsSome (view_at M.value later.now j)) self.old self.new }
        ensures present { OnOk result ((j : Instance) → IsSome (view_at M.value later.now j)
            → IsSome (view_at M.value self.new j)) }
        ensures succeeds { ((j : Instance) → IsSome (view_at M.value later.now j)
            → IsSome (view_at M.value self.old j)) → IsOk result }
    {
        for i in 0..later.len() {
            let (instance, _) = later.entry(i).unwrap();
            self.reserve(alloc, *instance, 0)?;
        }
        Ok(())
    }

    // Reserves room for the views of `middle` and of `right`, wherever `middle` has one.
    fn fit(&mut self, alloc: Global, middle: &Self, right: &Self) -> Result<(), AllocError>
        ensures views { FillsIn M.structure M.value (λ j. IsSome (view_at M.value middle.now j)) self.old self.new }
        ensures present { OnOk result ((j : Instance) → IsSome (view_at M.value middle.now j)
            → IsSome (view_at M.value self.new j)) }
        ensures room { OnOk result ((j : Instance) → IsSome (view_at M.value middle.now j)
            → size_at M.structure M.value middle.now j + size_at M.structure M.value right.now j
            ≤ room_at M.reserved self.new j) }
        ensures succeeds { ((j : Instance) → IsSome (view_at M.value middle.now j)
            → IsSome (view_at M.value self.old j) × (size_at M.structure M.value middle.now j
            + size_at M.structure M.value right.now j ≤ room_at M.reserved self.old j)) → IsOk result }
    {
        for i in 0..middle.len() {
            let (instance, view) = middle.entry(i).unwrap();
            let size = M::size(view) + right.size_of(*instance);
            self.reserve(alloc, *instance, size)?;
        }
        Ok(())
    }

    // Multiplies each view by that of `right`. There is room for each product.
    pub(crate) fn absorb(&mut self, alloc: Global, mut right: Self)
        requires present { (j : Instance) → IsSome (view_at M.value right j) → IsSome (view_at M.value self.old j) }
        requires room { (j : Instance) → size_at M.structure M.value right j ≤ room_at M.reserved self.old j }
        ensures views { (j : Instance) → view_at M.value self.new j
            ≡ merged M.structure (view_at M.value self.old j) (view_at M.value right j) }
        ensures room { (j : Instance) → room_at M.reserved self.old j ≤ room_at M.reserved self.new j
            + size_at M.structure M.value right j }
    {
        while let Some((instance, view)) = right.pop() {
            self.multiply(alloc, instance, view);
        }
    }

    /// Reserves the memory with which [`Views::merge3`] can't fail. No view changes its value; the
    /// unit is put where a later map has a view and an earlier one has none. Cost: linear in the
    /// instances of `middle` and `right`.
    pub fn room(
        alloc: Global,
        left: &mut Self,
        middle: &mut Self,
        right: &Self,
    ) -> Result<(), AllocError>
        ensures left { FillsIn M.structure M.value (λ j. IsSome (view_at M.value middle.old j)
            ⊎ IsSome (view_at M.value right.now j)) left.old left.new }
        ensures middle { FillsIn M.structure M.value (λ j. IsSome (view_at M.value right.now j)) middle.old middle.new }
        ensures room { OnOk result (HasRoom M.structure M.value M.reserved left.new middle.new right.now) }
        ensures succeeds { HasRoom M.structure M.value M.reserved left.old middle.old right.now → IsOk result }
    {
        middle.fill(alloc, right)?;
        left.fit(alloc, middle, right)
    }

    /// Multiplies the views of each instance, left by right, where an absent view counts as the
    /// unit. Cost: linear in the right side; no view is cloned. If memory runs out, both come back
    /// with the same values.
    pub fn merge(alloc: Global, mut left: Self, mut right: Self) -> Result<Self, (Self, Self)>
        ensures views { IfOk result (λ m. (j : Instance) → view_at M.value m j
            ≡ merged M.structure (view_at M.value left j) (view_at M.value right j)) }
        ensures values { IfOk result (λ m. (j : Instance) → value_at M.structure M.value m j
            ≡ M.structure.combine (value_at M.structure M.value left j) (value_at M.structure M.value right j)) }
        ensures err { IfErr result (λ p. KeepsValues M.structure M.value left p.0
            × KeepsValues M.structure M.value right p.1) }
    {
        let none = Views::new(alloc);
        match Views::room(alloc, &mut left, &mut right, &none) {
            Ok(()) => {
                left.absorb(alloc, right);
                Ok(left)
            }
            Err(_) => Err((left, right)),
        }
    }

    /// Multiplies the views of each instance, from left to right, where an absent view counts as
    /// the unit. After [`Views::room`] it allocates nothing and succeeds. If memory runs out, all
    /// three come back with the same values.
    pub fn merge3(
        alloc: Global,
        mut left: Self,
        mut middle: Self,
        right: Self,
    ) -> Result<Self, (Self, Self, Self)>
        ensures views { IfOk result (λ m. (j : Instance) → view_at M.value m j
            ≡ merged M.structure (merged M.structure (view_at M.value left j) (view_at M.value middle j))
            (view_at M.value right j)) }
        ensures values { IfOk result (λ m. (j : Instance) → value_at M.structure M.value m j
            ≡ M.structure.combine (M.structure.combine (value_at M.structure M.value left j)
            (value_at M.structure M.value middle j)) (value_at M.structure M.value right j)) }
        ensures err { IfErr result (λ p. KeepsValues M.structure M.value left p.0
            × KeepsValues M.structure M.value middle p.1 × KeepsValues M.structure M.value right p.2) }
        ensures succeeds { HasRoom M.structure M.value M.reserved left middle right → IsOk result }
    {
        match Views::room(alloc, &mut left, &mut middle, &right) {
            Ok(()) => {
                left.absorb(alloc, middle);
                left.absorb(alloc, right);
                Ok(left)
            }
            Err(_) => Err((left, middle, right)),
        }
    }
}
