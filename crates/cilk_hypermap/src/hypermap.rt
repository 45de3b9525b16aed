//! The views of all monoids that programs name.

ghost use Rattle.std.specs.Prelude.{◌≡◌, None, Some, IsSome, IsOk, OnOk, OnErr, IfOk, IfErr, ◌⊎◌};
ghost use Rattle.std.specs.Option.{option_map};
ghost use Rattle.cilk_types.specs.declared.event.Instance.{Instance};
ghost use Rattle.cilk_monoid.specs.Kinds.{structure_of, final_of};
ghost use Rattle.cilk_hypermap.specs.Hypermap.{EachKind, view_in, value_in, ChangesIn, KeepsAll};
ghost use Rattle.cilk_hypermap.specs.Hypermap.{KeepsAllValues, Retires, FillsAll, FitsAll, LosesAtMost, HasRoomForAll};
ghost use Rattle.cilk_hypermap.specs.Ranges.{JoinsRanges};
ghost use Rattle.cilk_hypermap.specs.Views.{merged, output};
ghost use Rattle.cilk_monoid.specs.Views.{number_value};

use crate::views::Views;
use cilk_monoid::affine::Affine;
use cilk_monoid::kind::MonoidKind;
use cilk_monoid::list::Append;
use cilk_monoid::number::{Add, Greatest, Least};
use cilk_monoid::view::{ListView, NumberView};
use cilk_types::event::Instance;
use cilk_types::outcome::Final;
use cilk_types::sequence::Sequence;
use std::alloc::{AllocError, Global};

/// The views of each monoid that programs name, by reducer instance.
///
/// Contracts see a finite map from kinds and instances to the values of their views (`view_in`).
/// The ordered output is the view of [`Instance::OUTPUT`] among the lists. When a call runs out of
/// memory, no view changes its value.
pub struct Hypermap {
    sums: Views<Add>,
    least: Views<Least>,
    greatest: Views<Greatest>,
    lists: Views<Append>,
    maps: Views<Affine>,
}

// A separate function, so that a proof follows one call where a hypermap is dropped.
impl Drop for Hypermap {
    fn drop(self) {
        let Hypermap {
            sums: _sums,
            least: _least,
            greatest: _greatest,
            lists: _lists,
            maps: _maps,
        } = self;
    }
}

impl Hypermap {
    /// Returns a hypermap without views.
    pub fn new(alloc: Global) -> Self
        ensures { EachKind (λ k. (i : Instance) → view_in result k i ≡ None) }
    {
        Hypermap {
            sums: Views::new(alloc),
            least: Views::new(alloc),
            greatest: Views::new(alloc),
            lists: Views::new(alloc),
            maps: Views::new(alloc),
        }
    }

    /// Sets the instance's view to the unit of its monoid.
    pub fn create(
        &mut self,
        alloc: Global,
        instance: Instance,
        kind: MonoidKind,
    ) -> Result<(), AllocError>
        ensures ok { OnOk result (ChangesIn self.old self.new kind instance (Some (structure_of kind).unit)) }
        ensures err { OnErr result (KeepsAll self.old self.new) }
    {
        match kind {
            MonoidKind::Add => self.sums.create(alloc, instance),
            MonoidKind::Least => self.least.create(alloc, instance),
            MonoidKind::Greatest => self.greatest.create(alloc, instance),
            MonoidKind::Append => self.lists.create(alloc, instance),
            MonoidKind::Affine => self.maps.create(alloc, instance),
        }
    }

    /// Sets the instance's view to that of the single number `x`.
    pub fn set(
        &mut self,
        alloc: Global,
        instance: Instance,
        kind: MonoidKind,
        x: i64,
    ) -> Result<(), AllocError>
        ensures ok { OnOk result (ChangesIn self.old self.new kind instance (Some ((structure_of kind).single x))) }
        ensures err { OnErr result (KeepsAll self.old self.new) }
    {
        match kind {
            MonoidKind::Add => self.sums.set(alloc, instance, x),
            MonoidKind::Least => self.least.set(alloc, instance, x),
            MonoidKind::Greatest => self.greatest.set(alloc, instance, x),
            MonoidKind::Append => self.lists.set(alloc, instance, x),
            MonoidKind::Affine => self.maps.set(alloc, instance, x),
        }
    }

    /// Multiplies the instance's view by `x` from the right. An absent view counts as the unit.
    pub fn update(
        &mut self,
        alloc: Global,
        instance: Instance,
        kind: MonoidKind,
        x: i64,
    ) -> Result<(), AllocError>
        ensures ok { OnOk result (ChangesIn self.old self.new kind instance
            (Some ((structure_of kind).combine (value_in self.old kind instance) ((structure_of kind).single x)))) }
        ensures err { OnErr result (KeepsAll self.old self.new) }
    {
        match kind {
            MonoidKind::Add => self.sums.update(alloc, instance, x),
            MonoidKind::Least => self.least.update(alloc, instance, x),
            MonoidKind::Greatest => self.greatest.update(alloc, instance, x),
            MonoidKind::Append => self.lists.update(alloc, instance, x),
            MonoidKind::Affine => self.maps.update(alloc, instance, x),
        }
    }

    /// Returns the number of the instance's view. If there is no view, the unit is put there first.
    pub fn value(
        &mut self,
        alloc: Global,
        instance: Instance,
        kind: MonoidKind,
    ) -> Result<i64, AllocError>
        ensures number { IfOk result (λ n. n ≡ (structure_of kind).number (value_in self.old kind instance)) }
        ensures ok { OnOk result (ChangesIn self.old self.new kind instance (Some (value_in self.old kind instance))) }
        ensures err { OnErr result (KeepsAll self.old self.new) }
    {
        match kind {
            MonoidKind::Add => self.sums.value(alloc, instance),
            MonoidKind::Least => self.least.value(alloc, instance),
            MonoidKind::Greatest => self.greatest.value(alloc, instance),
            MonoidKind::Append => self.lists.value(alloc, instance),
            MonoidKind::Affine => self.maps.value(alloc, instance),
        }
    }

    /// Appends the number to the ordered output.
    pub fn print(&mut self, alloc: Global, x: i64) -> Result<(), AllocError>
        ensures ok { OnOk result (ChangesIn self.old self.new MonoidKind.Append output
            (Some ((structure_of MonoidKind.Append).combine (value_in self.old MonoidKind.Append output)
            ((structure_of MonoidKind.Append).single x)))) }
        ensures err { OnErr result (KeepsAll self.old self.new) }
    {
        self.lists.print(alloc, x)
    }

    /// Drops the view of the instance, of whichever kind it is.
    pub fn retire(&mut self, instance: Instance)
        ensures { Retires self.old self.new instance }
    {
        self.sums.retire(instance);
        self.least.retire(instance);
        self.greatest.retire(instance);
        self.lists.retire(instance);
        self.maps.retire(instance);
    }

    /// Moves the view of the instance out as its reducer's last value, if there is a view. It
    /// allocates nothing: a list is moved.
    pub fn take(&mut self, instance: Instance, kind: MonoidKind) -> Option<Final>
        ensures value { result ≡ option_map final_of (view_in self.old kind instance) }
        ensures views { ChangesIn self.old self.new kind instance None }
    {
        match kind {
            MonoidKind::Add => number(self.sums.retire(instance)),
            MonoidKind::Least => number(self.least.retire(instance)),
            MonoidKind::Greatest => number(self.greatest.retire(instance)),
            MonoidKind::Append => {
                let list = self.lists.retire(instance)?;
                let ListView { items } = list;
                Some(Final::List(Sequence::new(items)))
            }
            MonoidKind::Affine => {
                let map = self.maps.retire(instance)?;
                Some(Final::Number(map.offset))
            }
        }
    }

    // Multiplies each view by that of `right`. There is room for each product.
    fn absorb(&mut self, alloc: Global, right: Self)
        requires present { EachKind (λ k. (j : Instance) → IsSome (view_in right k j) → IsSome (view_in self.old k j)) }
        requires room { FitsAll self.old right }
        ensures views { EachKind (λ k. (j : Instance) → view_in self.new k j ≡ merged (structure_of k) (view_in self.old k j) (view_in right k j)) }
        ensures room { LosesAtMost self.old right self.new }
    {
        let Hypermap {
            sums,
            least,
            greatest,
            lists,
            maps,
        } = right;
        self.sums.absorb(alloc, sums);
        self.least.absorb(alloc, least);
        self.greatest.absorb(alloc, greatest);
        self.lists.absorb(alloc, lists);
        self.maps.absorb(alloc, maps);
    }

    /// Reserves the memory with which [`Hypermap::merge3`] can't fail. No view changes its value;
    /// the unit is put where a later hypermap has a view and an earlier one has none. Cost: linear
    /// in the instances of `middle` and `right`.
    pub fn room(
        alloc: Global,
        left: &mut Self,
        middle: &mut Self,
        right: &Self,
    ) -> Result<(), AllocError>
        ensures left { FillsAll (λ k j. IsSome (view_in middle.old k j) ⊎ IsSome (view_in right.now k j)) left.old left.new }
        ensures middle { FillsAll (λ k j. IsSome (view_in right.now k j)) middle.old middle.new }
        ensures room { OnOk result (HasRoomForAll left.new middle.new right.now) }
        ensures succeeds { HasRoomForAll left.old middle.old right.now → IsOk result }
    {
        Views::room(alloc, &mut left.sums, &mut middle.sums, &right.sums)?;
        Views::room(alloc, &mut left.least, &mut middle.least, &right.least)?;
        Views::room(
            alloc,
            &mut left.greatest,
            &mut middle.greatest,
            &right.greatest,
        )?;
        Views::room(alloc, &mut left.lists, &mut middle.lists, &right.lists)?;
        Views::room(alloc, &mut left.maps, &mut middle.maps, &right.maps)
    }

    /// Multiplies the views of each instance, left by right, where an absent view counts as the
    /// unit. Cost: linear in the right side; no view is cloned. If memory runs out, both come back
    /// with the same values.
    pub fn merge(alloc: Global, mut left: Self, mut right: Self) -> Result<Self, (Self, Self)>
        ensures views { IfOk result (λ h. EachKind (λ k. (j : Instance) → view_in h k j ≡ merged (structure_of k) (view_in left k j) (view_in right k j))) }
        ensures values { IfOk result (λ h. EachKind (λ k. (j : Instance) → value_in h k j
            ≡ (structure_of k).combine (value_in left k j) (value_in right k j))) }
        ensures err { IfErr result (λ p. KeepsAllValues left p.0 × KeepsAllValues right p.1) }

        // Pieces of a run may be merged if the right one resets nothing that the left one mentions.
        ensures ranges { IfOk result (JoinsRanges left right) }
    {
        let none = Hypermap::new(alloc);
        match Hypermap::room(alloc, &mut left, &mut right, &none) {
            Ok(()) => {
                left.absorb(alloc, right);
                Ok(left)
            }
            Err(_) => Err((left, right)),
        }
    }

    /// Multiplies the views of each instance, from left to right, where an absent view counts as
    /// the unit. After [`Hypermap::room`] it allocates nothing and succeeds. If memory runs out,
    /// all three come back with the same values.
    pub fn merge3(
        alloc: Global,
        mut left: Self,
        mut middle: Self,
        right: Self,
    ) -> Result<Self, (Self, Self, Self)>
        ensures views { IfOk result (λ h. EachKind (λ k. (j : Instance) → view_in h k j
            ≡ merged (structure_of k) (merged (structure_of k) (view_in left k j) (view_in middle k j))
            (view_in right k j))) }
        ensures values { IfOk result (λ h. EachKind (λ k. (j : Instance) → value_in h k j
            ≡ (structure_of k).combine ((structure_of k).combine (value_in left k j) (value_in middle k j))
            (value_in right k j))) }
        ensures err { IfErr result (λ p. KeepsAllValues left p.0 × KeepsAllValues middle p.1 × KeepsAllValues right p.2) }
        ensures succeeds { HasRoomForAll left middle right → IsOk result }
    {
        match Hypermap::room(alloc, &mut left, &mut middle, &right) {
            Ok(()) => {
                left.absorb(alloc, middle);
                left.absorb(alloc, right);
                Ok(left)
            }
            Err(_) => Err((left, middle, right)),
        }
    }
}

// The number of a view, as a last value.
fn number(view: Option<NumberView>) -> Option<Final>
    ensures { result ≡ option_map final_of (option_map number_value view) }
{
    view.map(|view| Final::Number(view.number))
}
