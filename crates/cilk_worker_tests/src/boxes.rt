//! A join box: the pieces of a block's children arrive in another order than the run's, and the
//! piece at the `sync` arrives last.

ghost use Rattle.std.specs.Prelude.{◌≡◌, IfSome, IsTrue, None};
ghost use Rattle.cilk_tree.specs.Word.{resume, word_step};
ghost use Rattle.cilk_workers.specs.Boxes.{EndsAtKey};
ghost use Rattle.cilk_workers.specs.Rows.{IsGood};
ghost use Rattle.cilk_workers.specs.Shared.{event_order_in};
ghost use Rattle.cilk_replay.specs.Chains.{standing};
ghost use Rattle.cilk_workers.specs.Turns.{Works};

use crate::works::{Trial, tried};
use cilk_monoid::kind::MonoidKind;
use cilk_replay::chain::{Chain, Task};
use cilk_shared::piece::{Parts, Piece};
use cilk_types::event::{Instance, Pos};
use cilk_types::outcome::Final;
use cilk_workers::join::{Boxed, JoinBox};
use cilk_workers::locks::Arrival;
use cilk_workers::shared::Shared;
use cilk_workers::turn::{act, begin};
use cilk_workers::work::{Turn, Work};
use std::alloc::Global;
use std::process::Abort;

// Four spawned calls in one block, then the block's own last part. Each prints its number.
const CALLS: &str = "void f(int n) { print(n); } \
    int main() { cilk_spawn f(1); cilk_spawn f(2); cilk_spawn f(3); cilk_spawn f(4); print(5); cilk_sync; return 0; }";

// At least the turns of a piece.
const TURNS: u32 = 20;

/// The result of a worker's turns: its piece, its chain if that is at the `sync`, and the last task
/// that it offered.
#[derive(Drop)]
struct Stretch {
    piece: Piece,
    chain: Option<Chain>,
    task: Option<Task>,
}

// Makes the turns of a piece, up to the end of a child or to the `sync`.
fn made<R: Abort>(rt: &R, alloc: Global, shared: &Shared<'_>, mut work: Work) -> Stretch
    requires { Works shared.now work }
    ensures piece { IsGood shared.now.run result.piece }
    ensures chain { IfSome result.chain (λ c. c ≡ standing shared.now.replay result.piece.upto) }
    ensures task { IfSome result.task (λ t. t.of ≡ shared.now.replay) }
{
    let mut task = None;
    'each: for _ in 0..TURNS {
        match act(alloc, shared, &mut work) {
            Turn::Goes => {}
            Turn::Offers(offered) => task = Some(offered),
            Turn::Ended(_) => {
                let Work { piece, chain: _ } = work;
                return Stretch {
                    piece,
                    chain: None,
                    task,
                };
            }
            Turn::Arrives => {
                let Work { piece, chain } = work;
                return Stretch {
                    piece,
                    chain: Some(chain),
                    task,
                };
            }
            _ => panic!(rt; "another turn"),
        }
    }
    panic!(rt; "no end");
}

// Whether the continuation of the spawn at `key` resumes at a position.
fn resumes_at(shared: &Shared<'_>, key: Pos, at: Pos) -> bool
    ensures { IsTrue result → word_step (event_order_in shared.now) at ≡ resume key }
{
    match shared.resumed_by(at) {
        Some(child) => child == key,
        None => false,
    }
}

// A thief steals the continuation of a child's spawn.
fn record_steal<R: Abort>(rt: &R, shared: &Shared<'_>, found: &mut JoinBox, key: Pos, goes_on: Pos)
    requires { found.old.rows.of ≡ shared.now.run }
    ensures { (found.new.rows.of ≡ found.old.rows.of) × (found.new.replay ≡ found.old.replay) }
{
    assert!(rt; found.open(key, goes_on));
    assert!(rt; resumes_at(shared, key, goes_on));
    assert!(rt; found.record_steal(key, goes_on).is_ok());
}

// The arrival of a child's piece, and the work of the thief that steals the continuation.
fn child<R: Abort>(
    rt: &R,
    alloc: Global,
    shared: &Shared<'_>,
    found: &mut JoinBox,
    begun: Stretch,
) -> (Arrival, Work)
    requires run { (found.old.rows.of ≡ shared.now.run) × (found.old.replay ≡ shared.now.replay) }
    requires piece { IsGood shared.now.run begun.piece }
    requires task { IfSome begun.task (λ t. t.of ≡ shared.now.replay) }
    ensures same { (found.new.rows.of ≡ found.old.rows.of) × (found.new.replay ≡ found.old.replay) }
    ensures piece { IsGood shared.now.run result.0.piece }
    ensures chain { result.0.chain ≡ None }
    ensures works { Works shared.now result.1 }
{
    let Stretch {
        piece,
        chain: _,
        task,
    } = begun;
    let Some(task) = task else {
        panic!(rt; "no task");
    };
    let by = task.ticket();
    record_steal(rt, shared, found, by, task.at());
    let (piece, spare) = piece.apart(alloc, shared.yard(), shared.reducers());
    let Ok(work) = begin(shared, spare, task) else {
        panic!(rt; "not taken");
    };
    let chain = None;
    (Arrival { by, piece, chain }, work)
}

// Whether exactly these numbers were printed in a piece.
fn prints(piece: Piece, numbers: &[i64]) -> bool {
    let Parts {
        mut views,
        segment: _,
    } = piece.parted();
    match views.take(Instance::OUTPUT, MonoidKind::Append) {
        Some(Final::List(list)) => list.as_slice() == numbers,
        _ => false,
    }
}

// Whether a piece ends where its key says. `last` says whether it is the sync's own.
fn ends_at(shared: &Shared<'_>, by: Pos, piece: &Piece, last: bool) -> bool
    ensures { IsTrue result → EndsAtKey (event_order_in shared.now) by piece.now last }
{
    let at = piece.upto();
    if last {
        at == by
    } else {
        resumes_at(shared, by, at)
    }
}

// A piece arrives at the box. Returns the number of pieces that the box keeps. Returns `None` if
// the block passes; then all output up to the `sync` is in the run's order.
fn arrive<R: Abort>(
    rt: &R,
    alloc: Global,
    shared: &Shared<'_>,
    found: &mut JoinBox,
    arrival: Arrival,
) -> Option<usize>
    requires run { (found.old.rows.of ≡ shared.now.run) × (found.old.replay ≡ shared.now.replay) }
    requires piece { IsGood shared.now.run arrival.piece }
    requires chain { IfSome arrival.chain (λ c. c ≡ standing shared.now.replay arrival.piece.upto) }
    ensures same { (found.new.rows.of ≡ found.old.rows.of) × (found.new.replay ≡ found.old.replay) }
{
    let Arrival { by, piece, chain } = arrival;
    let Some(block) = shared.block_at(found.sync()) else {
        panic!(rt; "no block");
    };
    assert!(rt; block.sync == found.sync());
    assert!(rt; found.fits(by, &piece, chain.is_some(), block.first));
    assert!(rt; ends_at(shared, by, &piece, chain.is_some()));
    match found.arrive(alloc, shared.yard(), by, piece, chain) {
        Ok(Boxed::Waits) => Some(found.parts()),
        Ok(Boxed::Passes(piece, _)) => {
            assert!(rt; piece.from() == 1 && piece.upto() == by);
            assert!(rt; prints(piece, [1, 2, 3, 4, 5].as_slice()));
            None
        }
        Err(_) => panic!(rt; "no memory"),
    }
}

// The box of a position's block.
fn box_at<R: Abort>(rt: &R, alloc: Global, shared: &Shared<'_>, at: Pos) -> JoinBox
    ensures { (result.rows.of ≡ shared.now.run) × (result.replay ≡ shared.now.replay) }
{
    let Some(block) = shared.block_at(at) else {
        panic!(rt; "no block");
    };
    JoinBox::new(alloc, shared, block.sync)
}

/// Checks that the block passes with its own piece, after the fourth, second, third and first
/// child's.
pub fn joined<R: Abort>(rt: &R, alloc: Global, shared: &Shared<'_>, work: Work)
    requires { Works shared.now work }
{
    let begun = made(rt, alloc, shared, work);
    let mut found = box_at(rt, alloc, shared, begun.piece.upto());
    let (first, work) = child(rt, alloc, shared, &mut found, begun);
    let begun = made(rt, alloc, shared, work);
    let (second, work) = child(rt, alloc, shared, &mut found, begun);
    let begun = made(rt, alloc, shared, work);
    let (third, work) = child(rt, alloc, shared, &mut found, begun);
    let begun = made(rt, alloc, shared, work);
    let (fourth, work) = child(rt, alloc, shared, &mut found, begun);
    let Stretch {
        piece,
        chain,
        task: _,
    } = made(rt, alloc, shared, work);
    let by = piece.upto();
    assert!(rt; arrive(rt, alloc, shared, &mut found, fourth) == Some(1));
    assert!(rt; arrive(rt, alloc, shared, &mut found, second) == Some(2));
    assert!(rt; arrive(rt, alloc, shared, &mut found, third) == Some(1));
    assert!(rt; arrive(rt, alloc, shared, &mut found, first) == Some(1));
    assert!(rt; arrive(rt, alloc, shared, &mut found, Arrival { by, piece, chain }).is_none());
    assert!(rt; !found.fresh(Pos::MAX) && !found.open(Pos::MAX, Pos::MAX));
}

#[test]
fn pieces_come_in_another_order(rt: HostRuntime) {
    tried(&rt, rt.alloc(), CALLS, Trial::JoinBox);
}
