//! The continuations that one worker offers.

ghost use Rattle.std.specs.Prelude.{◌≡◌, ◌++◌, ◌∷◌, ◌<◌, [], ℕ, List, true, length, remove, slice_get, IfOk, MatchOption, OnErr, OnOk};
ghost use Rattle.cilk_scheduler.specs.Slots.{IsTallied, StandsIn, ahead, standing};
ghost use Rattle.cilk_scheduler.specs.OfferLists.{Withdraws};

use crate::tally::Tally;
use std::alloc::{AllocError, Global};
use std::marker::Model;

/// The frames whose continuations a worker offers, oldest first, by their indices: a deque with
/// access by rank.
///
/// An offer keeps its slot until it and all newer ones are gone, and a [`Tally`] counts the slots
/// whose offers are still open. So [`Offers::get`] costs the logarithm of the greatest number of
/// slots so far. [`Offers::push`] and [`Offers::remove`] cost the same, amortized. The newest
/// slot's offer is open.
#[derive(Drop)]
pub struct Offers {
    slots: Vec<Slot>,
    tally: Tally,
}

impl Model for Offers {
    ghost use Rattle.cilk_scheduler.specs.OfferLists.{OfferList};

    ghost Value = { OfferList };

    ghost use Rattle.cilk_scheduler.specs.Slots.{IsTallied, standing};

    ghost view = { λ o. record { items = standing o.slots.items } };

    ghost invariant = { λ o. IsTallied o.slots.items o.tally };
}

// An offer: the index of the frame, that of its newest child, and whether it is still open.
#[derive(Clone, Copy)]
struct Slot {
    frame: u32,
    child: u32,
    stands: bool,
}

impl Offers {
    /// Returns an empty list.
    pub fn new(alloc: Global) -> Offers
        ensures { result.items ≡ [] }
    {
        Offers {
            slots: Vec::new(alloc),
            tally: Tally::new(alloc),
        }
    }

    /// Returns the number of offers.
    pub fn len(&self) -> usize
        ensures { result ≡ length self.now.items }
    {
        self.tally.total()
    }

    /// Returns the frame of the offer at an index, from the oldest on.
    pub fn get(&self, place: usize) -> Option<u32>
        ensures { result ≡ slice_get self.now.items place }
    {
        if place >= self.tally.total() {
            return None;
        }
        Some(self.slots[self.tally.find(place)].frame)
    }

    /// Offers a frame's continuation beside the child that it has just spawned. The child must be
    /// newer than those of all earlier offers, or [`Offers::withdraw`] is slow; nothing else relies
    /// on it.
    pub fn push(&mut self, frame: u32, child: u32) -> Result<(), AllocError>
        ensures added { OnOk result (self.new.items ≡ self.old.items ++ frame ∷ []) }
        ensures same { OnErr result (self.new.items ≡ self.old.items) }
    {
        make_room(&self.slots, &mut self.tally)?;
        let at = self.slots.len();
        self.slots.push(Slot {
            frame,
            child,
            stands: true,
        })?;
        self.tally.raise(at);
        Ok(())
    }

    /// Removes the offer at an index.
    pub fn remove(&mut self, place: usize)
        requires { place < length self.old.items }
        ensures { self.new.items ≡ remove self.old.items place }
    {
        let at = self.tally.find(place);
        leave(&mut self.slots, &mut self.tally, at);
    }

    /// Withdraws a frame's offer beside its newest child. Returns whether there was one. Costs the
    /// same as [`Offers::remove`] if the binary search for `child` finds the offer, else up to a
    /// step for each slot.
    pub fn withdraw(&mut self, frame: u32, child: u32) -> bool
        ensures { Withdraws self.old.items frame result self.new.items }
    {
        match seek(&self.slots, frame, child) {
            Some(at) => {
                leave(&mut self.slots, &mut self.tally, at);
                true
            }
            None => false,
        }
    }
}

// Grows the tally if it has no number for one more slot.
fn make_room(slots: &Vec<Slot>, tally: &mut Tally) -> Result<(), AllocError>
    requires { IsTallied slots.now.items tally.old }
    ensures tallied { IsTallied slots.now.items tally.new }
    ensures room { OnOk result (length slots.now.items < length tally.new) }
{
    if slots.len() == tally.len() {
        *tally = grown(slots, tally)?;
    }
    Ok(())
}

// Returns a tally of the same slots with a number for at least one more.
fn grown(slots: &Vec<Slot>, tally: &Tally) -> Result<Tally, AllocError>
    requires { IsTallied slots.now.items tally.now }
    ensures tallied { IfOk result (λ t. IsTallied slots.now.items t) }
    ensures room { IfOk result (λ t. length slots.now.items < length t) }
{
    let mut wider = tally.zeros_of_twice(*slots.allocator())?;
    'each: for at in 0..slots.len() {
        if slots[at].stands {
            wider.raise(at);
        }
    }
    Ok(wider)
}

// Closes the offer in a slot, and drops the newest slots whose offers are closed.
fn leave(slots: &mut Vec<Slot>, tally: &mut Tally, at: usize)
    requires tallied { IsTallied slots.old.items tally.old }
    requires stands { (frame : ℕ) × StandsIn slots.old.items at frame }
    ensures tallied { IsTallied slots.new.items tally.new }
    ensures left { standing slots.new.items ≡ remove (standing slots.old.items) (ahead slots.old.items at) }
{
    slots[at].stands = false;
    tally.lower(at);
    trim(slots);
}

// Drops the newest slots, down to the first whose offer is open.
fn trim(slots: &mut Vec<Slot>)
    ensures standing { standing slots.new.items ≡ standing slots.old.items }
    ensures tallied { (tally : List ℕ) → IsTallied slots.old.items tally → IsTallied slots.new.items tally }
{
    'newest: while let Some(newest) = slots.last() {
        if newest.stands {
            return;
        }
        let _slot = slots.pop();
    }
}

// The slot of a frame's open offer, if there is one.
//
// A frame is offered right after it has spawned its newest child, the newest frame of all then, and
// starts no other child while it is offered. So slots are ordered by their children, and the binary
// search for that child finds the offer. The linear search covers all other cases.
fn seek(slots: &[Slot], frame: u32, child: u32) -> Option<usize>
    ensures { MatchOption result ((at : ℕ) → StandsIn slots.now at frame → ⊥) (λ at. StandsIn slots.now at frame) }
{
    let likely = slots.partition_point(|slot| slot.child < child);
    if likely < slots.len() && is_of(&slots[likely], frame) {
        return Some(likely);
    }
    let mut at = slots.len();
    'each: while at > 0 {
        at -= 1;
        if is_of(&slots[at], frame) {
            return Some(at);
        }
    }
    None
}

// Whether the slot's offer is open and of this frame.
fn is_of(slot: &Slot, frame: u32) -> bool
    ensures yes { result ≡ true → (slot.now.stands ≡ true) × (slot.now.frame ≡ frame) }
    ensures no { slot.now.stands ≡ true → slot.now.frame ≡ frame → result ≡ true }
{
    slot.stands && slot.frame == frame
}
