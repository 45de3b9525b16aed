//! The next event of a frame, and the fault in its place.

ghost use Rattle.std.specs.Prelude.{◌≡◌, ◌+◌, ◌<◌, ◌^◌, IfSome, None, Option, Some, length, slice_get};
ghost use Rattle.cilk_frames.specs.declared.activation.Activation.{Activation};
ghost use Rattle.cilk_program.specs.declared.ask.Ask.TheVariants as asks;
ghost use Rattle.cilk_types.specs.declared.fault.Fault.{Fault};
ghost use Rattle.cilk_scheduler.specs.declared.frame_state.FrameState.{FrameState};
ghost use Rattle.cilk_scheduler.specs.declared.frame_state.Due.TheVariants as dues;
ghost use Rattle.cilk_scheduler.specs.Asking.{Came, IsReady, IsReadyFor, WentOn, cells_asked, crowded, own_fault, refusal};
ghost use Rattle.cilk_scheduler.specs.FrameStates.{changed};

use crate::frame_state::{Due, FrameState};
use cilk_frames::activation::Activation;
use cilk_frames::asked::AskSlot;
use cilk_frames::cursor::Answer;
use cilk_frames::small_ask::SmallAsk;
use cilk_frames::stepping::step_into;
use cilk_lower::code::Code;
use cilk_lower::layout::Layout;
use cilk_types::fault::Fault;
use cilk_types::input::Input;
use cilk_types::limits::{MAX_CELLS, MAX_EVENTS, MAX_FRAMES, MAX_TICKS};

/// Runs a frame to its next event, which is left in `asked`. The frame's own limit of ticks is the
/// whole run's; [`refusal`] checks the ticks of all frames together. Each caller takes another `COPY`, so
/// that the compiler makes this a part of each.
#[inline(always)]
pub fn go_on<const COPY: u8>(
    code: &Code,
    input: &Input,
    frames: &mut Vec<Activation<FrameState>>,
    frame: usize,
    asked: &mut AskSlot,
)
    requires here { frame < length frames.old.items }
    requires ready { (a : Activation FrameState) → slice_get frames.old.items frame ≡ Some a → IsReady code.now input.now a.cursor }
    ensures { (a : Activation FrameState) → slice_get frames.old.items frame ≡ Some a → (x : FrameState) × WentOn code.now input.now a.cursor asked.new x × (frames.new.items ≡ changed (λ _. x) frames.old.items frame) }
{
    advance::<COPY>(code, input, &mut frames[frame].cursor, asked);
}

// `go_on` for the state of one frame.
#[inline(always)]
fn advance<const COPY: u8>(
    code: &Code,
    input: &Input,
    frame_state: &mut FrameState,
    asked: &mut AskSlot,
)
    requires { IsReady code.now input.now frame_state.old }
    ensures { WentOn code.now input.now frame_state.old asked.new frame_state.new }
{
    match frame_state.due {
        Due::Begin => asked.put(SmallAsk::Begin),
        Due::Sync => asked.put(SmallAsk::Sync),
        Due::Answer(answer) => take_up::<COPY>(code, input, frame_state, answer, asked),
    }
}

// `advance` where an answer is due.
fn take_up<const COPY: u8>(
    code: &Code,
    input: &Input,
    frame_state: &mut FrameState,
    answer: Answer,
    asked: &mut AskSlot,
)
    requires { IsReadyFor code.now input.now frame_state.old (dues.Answer answer) }
    ensures { Came code.now input.now frame_state.old answer asked.new frame_state.new }
{
    let Some(cursor) = &mut frame_state.cursor else {
        unreachable!()
    };
    let mut left = MAX_TICKS - frame_state.took;
    step_into(code, input, cursor, answer, &mut left, asked);
    frame_state.took = MAX_TICKS - left;
}

/// Returns the number of cells of the frame that the request starts, or `None` if it starts none.
pub fn cells_asked(layout: &Layout, asked: &AskSlot) -> Option<u32>
    ensures { result ≡ cells_asked layout.now asked.now }
{
    match asked.small_ask() {
        None => Some(layout.function_cells(asked.invocation().1.function)),
        Some(SmallAsk::Turns(_, part)) => Some(layout.part_cells(part)),
        Some(_) => None,
    }
}

/// Returns the fault in place of the requested event, if there is one. `ticks` includes the frame's
/// uncounted ones; the other numbers are those before the request. The first that applies is
/// returned: too many ticks (as [`Fault::TooManyEvents`]), the frame's own fault, too many events,
/// too many frames, too many cells.
#[inline(always)]
pub fn refusal(
    ticks: u32,
    events: usize,
    frames: usize,
    cells: usize,
    layout: &Layout,
    asked: &AskSlot,
) -> Option<Fault>
    requires events { events < 2 ^ 63 }
    requires frames { frames < 2 ^ 63 }
    requires cells { cells < 2 ^ 63 }
    ensures { result ≡ refusal ticks events frames cells layout.now asked.now }
{
    if ticks > MAX_TICKS {
        return Some(Fault::TooManyEvents);
    }
    if let Some(fault) = own_fault(asked) {
        return Some(fault);
    }
    if events + 1 > MAX_EVENTS as usize {
        return Some(Fault::TooManyEvents);
    }
    crowded(frames, cells, cells_asked(layout, asked))
}

// The frame's own fault.
#[inline(always)]
fn own_fault(asked: &AskSlot) -> Option<Fault>
    ensures some { IfSome result (λ f. asked.now ≡ asks.Fault f) }
    ensures none { result ≡ None → (other : Option Fault) → own_fault asked.now other ≡ other }
{
    match asked.small_ask() {
        Some(SmallAsk::Fault(fault)) => Some(*fault),
        _ => None,
    }
}

// Whether one more frame with these cells exceeds the limit of frames or of cells.
fn crowded(frames: usize, cells: usize, child: Option<u32>) -> Option<Fault>
    requires frames { frames < 2 ^ 63 }
    requires cells { cells < 2 ^ 63 }
    ensures { result ≡ crowded frames cells child }
{
    let count = child?;
    if frames + 1 > MAX_FRAMES as usize {
        return Some(Fault::TooManyFrames);
    }
    if cells + count as usize > MAX_CELLS as usize {
        return Some(Fault::TooManyCells);
    }
    None
}
