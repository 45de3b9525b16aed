//! Tasks on a rack: other workers take the oldest one, the rack's own worker takes the newest one.

ghost use Rattle.std.specs.Prelude.{◌≡◌};
ghost use Rattle.cilk_workers.specs.Turns.{Works};
ghost use Rattle.cilk_workers.specs.Names.{IsName};

use crate::works::{Trial, tried};
use cilk_replay::chain::Task;
use cilk_types::event::Pos;
use cilk_workers::naming::Naming;
use cilk_workers::rack::Rack;
use cilk_workers::shared::Shared;
use cilk_workers::turn::act;
use cilk_workers::work::{Turn, Work};
use std::alloc::Global;
use std::process::Abort;

// Three spawned calls, nested.
const NESTED: &str = "void c() { } \
    void b() { cilk_spawn c(); cilk_sync; } \
    void a() { cilk_spawn b(); cilk_sync; } \
    int main() { cilk_spawn a(); cilk_sync; return 0; }";

// At least the turns up to the end of the innermost call.
const TURNS: u32 = 20;

fn put<N: Naming, R: Abort>(rt: &R, shared: &Shared<'_>, rack: &mut Rack<N>, task: Task)
    requires name { IsName N.run N.replay N.taken shared.now }
    requires task { task.of ≡ shared.now.replay }
{
    let _ = shared;
    assert!(rt; rack.offer(task).is_ok());
}

// Makes the turns up to the end of the innermost call; puts the offered tasks on the rack.
fn offers<N: Naming, R: Abort>(
    rt: &R,
    alloc: Global,
    shared: &Shared<'_>,
    rack: &mut Rack<N>,
    mut work: Work,
)
    requires name { IsName N.run N.replay N.taken shared.now }
    requires works { Works shared.now work }
{
    'each: for _ in 0..TURNS {
        match act(alloc, shared, &mut work) {
            Turn::Goes => {}
            Turn::Offers(task) => put::<N, R>(rt, shared, rack, task),
            _ => return,
        }
    }
}

fn ticket(rt: &impl Abort, task: Option<Task>) -> Pos {
    match task {
        Some(task) => task.ticket(),
        None => panic!(rt; "no task"),
    }
}

/// Checks that three offered tasks are taken in the right order.
pub fn taken<N: Naming, R: Abort>(rt: &R, alloc: Global, shared: &Shared<'_>, work: Work)
    requires name { IsName N.run N.replay N.taken shared.now }
    requires works { Works shared.now work }
{
    let Ok(mut rack) = Rack::<N>::new(alloc, 1) else {
        panic!(rt; "no memory for a rack");
    };
    assert!(rt; rack.newest().is_none());
    let Ok(mut picker) = rack.picker() else {
        panic!(rt; "no memory for a picker");
    };
    assert!(rt; picker.oldest().is_none());
    offers::<N, R>(rt, alloc, shared, &mut rack, work);
    let outer = ticket(rt, picker.oldest());
    let inner = ticket(rt, rack.newest());
    let between = ticket(rt, rack.newest());
    assert!(rt;
        outer < between && between < inner,
        "{outer} {between} {inner}"
    );
    assert!(rt; rack.newest().is_none() && picker.oldest().is_none());
}

#[test]
fn tasks_are_taken_from_both_ends(rt: HostRuntime) {
    tried(&rt, rt.alloc(), NESTED, Trial::Rack);
}
