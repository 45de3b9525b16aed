//! The lock of a shelf of join boxes: a queue of capacity 1 with the shelf in it.
//!
//! Popping the shelf locks it, and pushing it back unlocks it. Each worker has a key for each lock;
//! keys are made before the threads start. The rule is that there is one shelf, in the queue or with
//! one key, so the queue has room whenever a shelf is put back. What is put back is the shelf that was
//! popped, after one steal or arrival at one of its blocks. The key knows both shelves, and how often
//! it was used, so contracts say which step a call made, and that it made no other.

ghost use Rattle.std.specs.Prelude.{◌≡◌, true, false, IfOk};
ghost use Rattle.crossbeam_queue.specs.Passes.{IsPassOf, view};
ghost use Rattle.cilk_workers.specs.Keys.{HoldsBefore, IsFree, IsFreeLike};
ghost use Rattle.cilk_workers.specs.Locks.{IsPopped, IsShelf, freed, uses};
ghost use Rattle.cilk_workers.specs.Shelves.{IsEmptyShelf};
ghost use Rattle.cilk_workers.specs.declared.lock.KeyState.TheVariants.{Holds};
ghost use Rattle.cilk_workers.specs.declared.shelf.Place.{Place};

use crate::naming::Naming;
use crate::shelf::Shelf;
use crossbeam_queue::protocol::{Lesson, Outcome, Protocol, Split};
use crossbeam_queue::{Pass, RuledArrayQueue};
use crossbeam_utils::Backoff;
use std::alloc::{AllocError, Global};
use std::marker::PhantomData;
use std::sync::Wait;

/// The state of a key. It exists in contracts alone. The number counts the uses of the key: each shelf
/// that was put back with it, and each key that was made of it or of which it was made.
pub enum KeyState {
    /// The lock is new, and has no shelf yet.
    New,
    /// The key holds this shelf.
    Holds(Shelf, u64),
    /// The key doesn't hold the shelf. It held the first one here, and put back the second one.
    Free(Shelf, Shelf, u64),
}

/// The rule of a shelf's queue: the one shelf, which belongs to the run that `N` names, is in the
/// queue or with one key. A key's view says which shelf it holds.
pub struct OfShelf<N: Naming> {
    of: PhantomData<N>,
}

impl<N: Naming> Protocol<Shelf, KeyState> for OfShelf<N> {
    ghost use Rattle.cilk_workers.specs.declared.lock.KeyState.TheVariants.{New};
    ghost use Rattle.cilk_workers.specs.Locks.{Shelved};

    ghost holds = { λ items views. Shelved N.run N.replay items views };

    ghost first = { New };
}

/// The pop that locks the shelf.
pub struct Locks<N: Naming> {
    of: PhantomData<N>,
}

impl<N: Naming> Outcome<Shelf, KeyState> for Locks<N> {
    ghost use Rattle.std.specs.Prelude.{◌≡◌};
    ghost use Rattle.cilk_workers.specs.declared.lock.KeyState.TheVariants.{Holds};
    ghost use Rattle.cilk_workers.specs.Locks.{IsPopped, uses};

    ghost then = { λ v x w. IsPopped N.run N.replay v x × (w ≡ Holds x (uses v)) };
}

impl<N: Naming> Lesson<Shelf, KeyState> for Locks<N> {
    ghost use Rattle.std.specs.Prelude.{⊤};

    ghost fact = { λ v items. ⊤ };
}

/// The push that unlocks the shelf: a queue is empty while a key holds its shelf.
pub struct Unlocks;

impl Outcome<Shelf, KeyState> for Unlocks {
    ghost use Rattle.std.specs.Prelude.{◌≡◌};
    ghost use Rattle.cilk_workers.specs.Locks.{MayPush, freed};

    ghost then = { λ v x w. MayPush v x × (w ≡ freed v x) };
}

impl Lesson<Shelf, KeyState> for Unlocks {
    ghost use Rattle.std.specs.Prelude.{◌≡◌, []};
    ghost use Rattle.cilk_workers.specs.Locks.{held};

    ghost fact = { λ v items. held v ≡ 1 → items ≡ [] };
}

/// Another key knows what the first one knows, and both count that as a use.
pub struct Alike;

impl Split<KeyState> for Alike {
    ghost use Rattle.cilk_workers.specs.Locks.{copied};

    ghost left = { copied };

    ghost right = { copied };
}

/// A shelf's queue.
pub type Lock<N> = RuledArrayQueue<Shelf, KeyState, OfShelf<N>>;

/// A worker's key of a shelf's queue.
pub type Key = Pass<Shelf, KeyState>;

/// Makes a lock with this empty shelf in it, and a first key. Fails if memory runs out.
pub fn new_locked<N: Naming, R: Wait>(
    rt: &R,
    alloc: Global,
    first: Shelf,
) -> Result<(Lock<N>, Key), AllocError>
    requires { IsShelf N.run N.replay first × IsEmptyShelf first }
    ensures { IfOk result (λ r. IsFree r.0 first.place r.1) }
{
    let (lock, mut key) = Lock::<N>::ruled(alloc, 1)?;
    if lock.push_as::<Unlocks, R>(rt, &mut key, first).is_err() {
        unreachable!();
    }
    Ok((lock, key))
}

/// Waits forever.
pub(crate) fn never<R: Wait>(rt: &R)
    ensures { false ≡ true }
{
    let rest = Backoff::new();
    for _ in rt.forever() {
        rest.snooze();
    }
    unreachable!()
}

/// Locks the shelf: waits until it is there, and pops it.
pub fn lock<N: Naming, R: Wait>(rt: &R, lock: &Lock<N>, key: &mut Key) -> Shelf
    requires { IsPassOf lock.now key.old }
    ensures key { IsPassOf lock.now key.new × (view key.new ≡ Holds result (uses (view key.old))) }
    ensures found { IsPopped N.run N.replay (view key.old) result }
{
    let backoff = Backoff::new();
    for _ in rt.forever() {
        if let Some(found) = lock.pop_as::<Locks<N>, R>(rt, key) {
            return found;
        }
        backoff.snooze();
    }
    unreachable!()
}

/// Unlocks the shelf: pushes it back. It is the one that the key holds, after one step.
pub fn unlock<N: Naming, R: Wait>(rt: &R, lock: &Lock<N>, key: &mut Key, back: Shelf)
    requires key { IsPassOf lock.now key.old }
    requires back { HoldsBefore key.old back }
    ensures { IsPassOf lock.now key.new × (view key.new ≡ freed (view key.old) back) }
{
    if lock.push_as::<Unlocks, R>(rt, key, back).is_err() {
        unreachable!();
    }
}

/// Makes a key for another worker.
pub fn another<N: Naming>(lock: &Lock<N>, key: &mut Key) -> Key
    requires { (at : Place) × IsFree lock.now at key.old }
    ensures old { IsFreeLike lock.now key.old key.new }
    ensures new { IsFreeLike lock.now key.old result }
{
    lock.another::<Alike>(key)
}
