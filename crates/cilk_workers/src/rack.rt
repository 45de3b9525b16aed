//! A worker's deque of tasks (Chase and Lev 2005). Its owner pops the newest, and others steal the
//! oldest.

ghost use Rattle.std.specs.Prelude.{◌≡◌, ◌+◌, ◌≤◌, ◌<◌, true, false, [], ◌∷◌, ◌++◌, All, IfOk, IfErr, MatchOption};
ghost use Rattle.crossbeam_deque.specs.Handles.{view, IsPassOf, worker_flavor, worker_port, worker_view, stealer_deque};
ghost use Rattle.cilk_workers.specs.Racks.{MayPick, Of, offers};

use crate::naming::Naming;
use cilk_replay::chain::Task;
use crossbeam_deque::protocol::{Outcome, Protocol, Split};
use crossbeam_deque::{Pass, Steal, Stealer, Worker};
use std::alloc::{AllocError, Global};
use std::collections::LinkedList;
use std::marker::PhantomData;

/// The state of a pass: whether it is the owner's, whether no picker has been made, and the tasks
/// that the owner has offered and not got back, or that the picker has stolen. It exists in
/// contracts alone.
pub struct Offers {
    pub owner: bool,
    pub alone: bool,
    pub waiting: LinkedList<Task>,
}

/// The rule of a rack.
pub struct OfRun<N: Naming> {
    of: PhantomData<N>,
}

impl<N: Naming> Protocol<Task, Offers> for OfRun<N> {
    ghost use Rattle.std.specs.Prelude.{true, false, []};
    ghost use Rattle.cilk_workers.specs.Racks.{offers, Racked};

    ghost holds = { λ items views. Racked N.replay N.taken items views };

    ghost first = { offers true true [] };

    ghost guest = { offers false false [] };
}

/// The push of a task.
pub struct Offered;

impl Outcome<Task, Offers> for Offered {
    ghost then = { λ v xs w. w ≡ offers v.owner v.alone (v.waiting ++ xs) };
}

/// The pop of the task that was offered last.
pub struct GivenBack<N: Naming> {
    of: PhantomData<N>,
}

impl<N: Naming> Outcome<Task, Offers> for GivenBack<N> {
    ghost use Rattle.std.specs.Prelude.{◌≡◌, true, [], ◌++◌, All};
    ghost use Rattle.cilk_workers.specs.Racks.{Of};

    ghost then = { λ v xs w. (w.owner ≡ v.owner) × (w.alone ≡ v.alone) × (v.waiting ≡ w.waiting ++ xs) × All (Of N.replay) xs };

    ghost empty = { λ v. All N.taken v.waiting × (v.alone ≡ true → v.waiting ≡ []) };
}

/// The steal of the oldest task.
pub struct Taken<N: Naming> {
    of: PhantomData<N>,
}

impl<N: Naming> Outcome<Task, Offers> for Taken<N> {
    ghost use Rattle.std.specs.Prelude.{◌≡◌, ◌++◌, All};
    ghost use Rattle.cilk_workers.specs.Racks.{Of, offers};

    ghost then = { λ v xs w. (w ≡ offers v.owner v.alone (v.waiting ++ xs)) × All (Of N.replay) xs };
}

/// The split of the owner's pass that makes one for a picker.
pub struct Parts;

impl Split<Offers> for Parts {
    ghost use Rattle.std.specs.Prelude.{false, []};
    ghost use Rattle.cilk_workers.specs.Racks.{offers};

    ghost left = { λ v. offers v.owner false v.waiting };

    ghost right = { λ v. offers false false [] };
}

/// A worker's own end of its deque.
#[derive(Drop)]
pub struct Rack<N: Naming> {
    worker: Worker<Task, Global, Offers, OfRun<N>>,
    ghost lifo: { worker_flavor worker ≡ 1 },
    ghost first: { worker_port worker ≡ 0 },
    ghost owner: { (worker_view worker).owner ≡ true },
}

/// Another worker's end of a deque, by which it steals.
#[derive(Drop)]
pub struct Picker<N: Naming> {
    stealer: Stealer<Task, Global, Offers, OfRun<N>>,
    pass: Pass<Task, Offers>,
    ghost tied: { IsPassOf (stealer_deque stealer) pass },
    ghost guest: { (view pass).owner ≡ false },
}

impl<N: Naming> Rack<N> {
    ghost use Rattle.cilk_workers.specs.Held.{IsAlone, IsNewRack, IsOffered, IsPickerOf, IsSameRack, waiting, offered};

    /// Makes a rack without tasks, with room for the first `first` offers: none of these can fail.
    pub fn new(alloc: Global, first: usize) -> Result<Rack<N>, AllocError>
        ensures { IfOk result (IsNewRack first) }
    {
        let worker = Worker::lifo_as(alloc, first)?;
        Ok(Rack { worker })
    }

    /// Pushes a task. An offer within the rack's room can't fail. Past it the rack may have to grow;
    /// if memory runs out for that, the task comes back, and the rack is as before.
    pub fn offer(&mut self, task: Task) -> Result<(), Task>
        requires { Of N.replay task }
        ensures rule { IsOffered self.old task result self.new }
        ensures same { IsSameRack self.old self.new × (IsAlone self.old → IsAlone self.new) }
    {
        self.worker.push_as::<Offered>(task)
    }

    /// Pops the task that was offered last and not given back. `None` means that the deque was
    /// found empty: pickers have taken each task that waits. If no picker has been made, then none
    /// waits.
    pub fn newest(&mut self) -> Option<Task>
        ensures rule { MatchOption result ((waiting self.new ≡ waiting self.old) × All N.taken (waiting self.old) × (IsAlone self.old → waiting self.old ≡ [])) (λ t. (waiting self.old ≡ waiting self.new ++ t ∷ []) × Of N.replay t) }
        ensures same { IsSameRack self.old self.new × (offered self.new ≤ offered self.old) }
        ensures alone { (IsAlone self.old → IsAlone self.new) × (IsAlone self.new → IsAlone self.old) }
    {
        self.worker.pop_as::<GivenBack<N>>()
    }

    /// Makes another worker's end of this rack.
    pub fn picker(&mut self) -> Result<Picker<N>, AllocError>
        ensures picker { IfOk result (λ p. IsPickerOf self.new p) }
        ensures same { IsSameRack self.old self.new × (waiting self.new ≡ waiting self.old) × (offered self.new ≡ offered self.old) }
        ensures alone { IfErr result (λ _. IsAlone self.old → IsAlone self.new) }
    {
        let stealer = self.worker.stealer()?;
        let pass = self.worker.another::<Parts>();
        Ok(Picker { stealer, pass })
    }
}

/// The deque of a rack.
pub type Tasks<N> = Worker<Task, Global, Offers, OfRun<N>>;

/// The stealer of a rack's deque.
pub type Takes<N> = Stealer<Task, Global, Offers, OfRun<N>>;

impl<N: Naming> Rack<N> {
    /// Returns the deque alone, to send it to a thread.
    pub fn parted(self) -> Tasks<N>
        ensures deque { result ≡ self.worker }
        ensures owner { (worker_flavor result ≡ 1) × (worker_port result ≡ 0) × ((worker_view result).owner ≡ true) }
    {
        self.worker
    }

    /// Makes a rack of such a deque.
    pub fn of(worker: Tasks<N>) -> Rack<N>
        requires { (worker_flavor worker ≡ 1) × (worker_port worker ≡ 0) × ((worker_view worker).owner ≡ true) }
        ensures { result.worker ≡ worker }
    {
        Rack { worker }
    }
}

impl<N: Naming> Picker<N> {
    ghost use Rattle.cilk_workers.specs.Held.{stolen};

    /// Returns the stealer and its pass, to send them to a thread.
    pub fn parted(self) -> (Takes<N>, Pass<Task, Offers>)
        ensures parts { (result.0 ≡ self.stealer) × (result.1 ≡ self.pass) }
        ensures guest { IsPassOf (stealer_deque result.0) result.1 × ((view result.1).owner ≡ false) }
    {
        (self.stealer, self.pass)
    }

    /// Makes a picker of such a stealer and pass.
    pub fn of(stealer: Takes<N>, pass: Pass<Task, Offers>) -> Picker<N>
        requires { IsPassOf (stealer_deque stealer) pass × ((view pass).owner ≡ false) }
        ensures { (result.stealer ≡ stealer) × (result.pass ≡ pass) }
    {
        Picker { stealer, pass }
    }

    /// Steals the oldest task. `None` means that the deque was empty, or that the steal has to be
    /// retried.
    pub fn oldest(&mut self) -> Option<Task>
        requires { MayPick N.taken }
        ensures rule { MatchOption result (stolen self.new ≡ stolen self.old) (λ t. Of N.replay t × (stolen self.new ≡ stolen self.old ++ t ∷ [])) }
        ensures same { stealer_deque self.new.stealer ≡ stealer_deque self.old.stealer }
    {
        match self.stealer.steal_as::<Taken<N>>(&mut self.pass) {
            Steal::Success(task) => Some(task),
            Steal::Empty | Steal::Retry => None,
        }
    }
}
