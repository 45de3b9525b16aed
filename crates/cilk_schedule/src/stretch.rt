//! A stretch: events of a worker's frame, one after another, that start and end no frame and no
//! block. Each is made without a result of its own, which would be put together in memory.

ghost use Rattle.std.specs.Prelude.{◌≡◌, ◌<◌, ◌≤◌, ℕ, ℤ, List, None, false, IfSome, IsTrue, length};
ghost use Rattle.std.specs.Vec.{vec_capacity, vec_len};
ghost use Rattle.cilk_types.specs.declared.event.Event.{Event};
ghost use Rattle.cilk_schedule.specs.Acts.{Touched, Wrote};
ghost use Rattle.cilk_schedule.specs.Sound.{IsAccepted, IsAsked, IsTurn, Makes, Runs, SameRest};
ghost use Rattle.cilk_schedule.specs.Stretches.{ComesBehind, GoesAlong};

use crate::events::{read, write, write_result};
use crate::running::{come, ready, refused};
use cilk_frames::small_ask::SmallAsk;
use cilk_lower::code::Code;
use cilk_scheduler::frame_states::begin_strand;
use cilk_scheduler::journal::note;
use cilk_scheduler::scheduler::Scheduler;
use cilk_types::event::Event;
use cilk_types::input::Input;

/// Makes at most `most` such events of a worker's frame. Returns how many, and the place of the frame
/// if it has made another request, which is left.
pub fn along(
    code: &Code,
    input: &Input,
    scheduler: &mut Scheduler,
    worker: u32,
    most: u32,
) -> (u32, Option<u32>)
    requires { Runs code.now input.now scheduler.old }
    ensures few { result.0 ≤ most }
    ensures more { IfSome result.1 (λ k. result.0 < most) }
    ensures stopped { scheduler.new.stopped ≡ scheduler.old.stopped }
    ensures outcome { scheduler.new.outcome ≡ scheduler.old.outcome }
    ensures along { result.1 ≡ None → Runs code.now input.now scheduler.new × GoesAlong code.now input.now worker result.0 scheduler.old scheduler.new }
    ensures asks { IfSome result.1 (λ k. ComesBehind code.now input.now worker result.0 scheduler.old scheduler.new k) }
{
    let mut made = 0;
    'events: while made < most {
        let Some(frame) = ready(scheduler, worker) else {
            return (made, None);
        };
        come::<2>(code, input, scheduler, frame);
        if !may_make(code, scheduler, frame as usize) {
            return (made, Some(frame));
        }
        if !act_alone(code, scheduler, frame) {
            return (made, Some(frame));
        }
        made += 1;
    }
    (made, None)
}

// Whether the journal has room, and no fault comes instead of the requested event.
#[inline(always)]
fn may_make(code: &Code, scheduler: &Scheduler, frame: usize) -> bool
    requires asked { (inputs : List ℤ) × IsAsked code.now inputs scheduler.now frame }
    ensures room { IsTrue result → vec_len scheduler.now.journal < vec_capacity scheduler.now.journal }
    ensures accepted { IsTrue result → IsAccepted code.now scheduler.now frame }
{
    scheduler.journal.len() < scheduler.journal.capacity()
        && refused(code, scheduler, frame).is_none()
}

// Makes the requested event if it is such a one, and adds it to the journal. Returns whether it is.
#[inline(always)]
fn act_alone(code: &Code, scheduler: &mut Scheduler, frame: u32) -> bool
    requires asked { (inputs : List ℤ) × IsAsked code.now inputs scheduler.old frame }
    requires accepted { IsAccepted code.now scheduler.old frame }
    requires room { vec_len scheduler.old.journal < vec_capacity scheduler.old.journal }
    ensures none { result ≡ false → scheduler.new ≡ scheduler.old }
    ensures runs { IsTrue result → (inputs : List ℤ) → IsAsked code.now inputs scheduler.old frame → Runs code.now inputs scheduler.new }
    ensures wrote { IsTrue result → (e : Event) × ((w : ℕ) → w < length scheduler.old.workers.items → Wrote scheduler.old scheduler.new w frame e) }
    ensures stopped { scheduler.new.stopped ≡ scheduler.old.stopped }
    ensures outcome { scheduler.new.outcome ≡ scheduler.old.outcome }
{
    let Some(event) = make_alone(code, scheduler, frame) else {
        return false;
    };
    scheduler.ticks = note(
        &mut scheduler.frames,
        &mut scheduler.journal,
        scheduler.ticks,
        frame,
        event,
    );
    true
}

// Makes the requested event if it is such a one. It isn't in the journal yet.
#[inline(always)]
fn make_alone(_code: &Code, scheduler: &mut Scheduler, place: u32) -> Option<Event>
    requires turn { (inputs : List ℤ) × IsTurn _code.now inputs scheduler.old place }
    ensures none { result ≡ None → scheduler.new ≡ scheduler.old }
    ensures made { IfSome result (λ e. Makes _code.now scheduler.old scheduler.new place) }
    ensures rest { SameRest scheduler.old scheduler.new }
    ensures outcome { scheduler.new.outcome ≡ scheduler.old.outcome }
    ensures touched { IfSome result (λ e. (w : ℕ) → w < length scheduler.old.workers.items → Touched scheduler.old scheduler.new w place e) }
{
    let Some(small_ask) = scheduler.asked.small_ask() else {
        return None;
    };
    let frame = place as usize;
    match *small_ask {
        SmallAsk::Begin => {
            begin_strand(&mut scheduler.frames, frame);
            Some(Event::Begin { frame: place + 1 })
        }
        SmallAsk::Resume => {
            begin_strand(&mut scheduler.frames, frame);
            Some(Event::Resume { parent: place + 1 })
        }
        SmallAsk::Read(cell) => {
            let cells = scheduler.cells.as_slice();
            Some(read(&mut scheduler.frames, cells, frame, cell))
        }
        SmallAsk::Write(cell, word) => {
            let cells = &mut scheduler.cells;
            Some(write(&mut scheduler.frames, cells, frame, cell, word))
        }
        SmallAsk::Result(word) => {
            let cells = &mut scheduler.cells;
            Some(write_result(&mut scheduler.frames, cells, frame, word))
        }
        _ => None,
    }
}
