//! Events of cells and reducers that a frame requests.

ghost use Rattle.std.specs.Prelude.{◌≡◌, ◌<◌, ℕ, ℤ, List, length, IfOk, OnErr, OnOk};
ghost use Rattle.cilk_program.specs.declared.ask.Ask.TheVariants as asks;
ghost use Rattle.cilk_hypermap.specs.declared.hypermap.Hypermap.{Hypermap};
ghost use Rattle.cilk_schedule.specs.Acts.{MakesEvent};
ghost use Rattle.cilk_schedule.specs.Sound.{HasCome, SameTicks, Settles};

use cilk_frames::activation::Activation;
use cilk_hypermap::hypermap::Hypermap;
use cilk_program::syntax::{Place, Reducer};
use cilk_scheduler::cells::cell_at;
use cilk_scheduler::frame_state::FrameState;
use cilk_scheduler::reducers::instance_at;
use cilk_scheduler::{cells, reducers};
use cilk_types::event::Event;
use std::alloc::{AllocError, Global};

/// Makes the frame's read of the cell at `place`.
#[inline(always)]
pub fn read(
    frames: &mut Vec<Activation<FrameState>>,
    cells: &[i64],
    frame: usize,
    place: Place,
) -> Event
    requires here { frame < length frames.old.items }
    requires comes { HasCome frames.old.items (length cells.now) frame (asks.Read place) }
    ensures settles { Settles frames.old.items frames.new.items (length cells.now) (length cells.now) frame (asks.Read place) }
    ensures ticks { SameTicks frames.old.items frames.new.items }
    ensures makes { (views : Hypermap) → MakesEvent frames.old.items frames.new.items cells.now cells.now views views frame (asks.Read place) result }
{
    let cell = cell_at(frames.as_slice(), frame, place);
    cells::read(frames, cells, frame, cell)
}

/// Makes the frame's write of `word` to the cell at `place`.
#[inline(always)]
pub fn write(
    frames: &mut Vec<Activation<FrameState>>,
    cells: &mut Vec<i64>,
    frame: usize,
    place: Place,
    word: i64,
) -> Event
    requires here { frame < length frames.old.items }
    requires comes { HasCome frames.old.items (length cells.old.items) frame (asks.Write place word) }
    ensures settles { Settles frames.old.items frames.new.items (length cells.old.items) (length cells.new.items) frame (asks.Write place word) }
    ensures ticks { SameTicks frames.old.items frames.new.items }
    ensures makes { (views : Hypermap) → MakesEvent frames.old.items frames.new.items cells.old.items cells.new.items views views frame (asks.Write place word) result }
{
    let cell = cell_at(frames.as_slice(), frame, place);
    cells::write(frames, cells, frame, cell, word)
}

/// Makes the frame's write of its result, to the cell that receives it.
#[inline(always)]
pub fn write_result(
    frames: &mut Vec<Activation<FrameState>>,
    cells: &mut Vec<i64>,
    frame: usize,
    word: i64,
) -> Event
    requires here { frame < length frames.old.items }
    requires comes { HasCome frames.old.items (length cells.old.items) frame (asks.Result word) }
    ensures settles { Settles frames.old.items frames.new.items (length cells.old.items) (length cells.new.items) frame (asks.Result word) }
    ensures ticks { SameTicks frames.old.items frames.new.items }
    ensures makes { (views : Hypermap) → MakesEvent frames.old.items frames.new.items cells.old.items cells.new.items views views frame (asks.Result word) result }
{
    let Some(cell) = frames[frame].result else {
        unreachable!()
    };
    cells::write(frames, cells, frame, cell, word)
}

/// Makes the frame's creation of a reducer.
pub fn create(
    alloc: Global,
    frames: &mut Vec<Activation<FrameState>>,
    views: &mut Hypermap,
    frame: usize,
    reducer: Reducer,
) -> Result<Event, AllocError>
    requires here { frame < length frames.old.items }
    requires comes { (cells : ℕ) × HasCome frames.old.items cells frame (asks.Create reducer) }
    ensures settles { OnOk result ((cells : ℕ) → Settles frames.old.items frames.new.items cells cells frame (asks.Create reducer)) }
    ensures ticks { OnOk result (SameTicks frames.old.items frames.new.items) }
    ensures makes { IfOk result (λ e. (cells : List ℤ) → MakesEvent frames.old.items frames.new.items cells cells views.old views.new frame (asks.Create reducer) e) }
    ensures same { OnErr result (frames.new.items ≡ frames.old.items) }
{
    let instance = instance_at(frames.as_slice(), frame, reducer.place);
    reducers::create(alloc, frames, views, frame, instance, reducer.kind)
}

/// Makes the frame's update of a reducer.
pub fn update(
    alloc: Global,
    frames: &mut Vec<Activation<FrameState>>,
    views: &mut Hypermap,
    frame: usize,
    reducer: Reducer,
    word: i64,
) -> Result<Event, AllocError>
    requires here { frame < length frames.old.items }
    requires comes { (cells : ℕ) × HasCome frames.old.items cells frame (asks.Update reducer word) }
    ensures settles { OnOk result ((cells : ℕ) → Settles frames.old.items frames.new.items cells cells frame (asks.Update reducer word)) }
    ensures ticks { OnOk result (SameTicks frames.old.items frames.new.items) }
    ensures makes { IfOk result (λ e. (cells : List ℤ) → MakesEvent frames.old.items frames.new.items cells cells views.old views.new frame (asks.Update reducer word) e) }
    ensures same { OnErr result (frames.new.items ≡ frames.old.items) }
{
    let instance = instance_at(frames.as_slice(), frame, reducer.place);
    reducers::update(alloc, frames, views, frame, instance, reducer.kind, word)
}

/// Makes the frame's set of a reducer.
pub fn set(
    alloc: Global,
    frames: &mut Vec<Activation<FrameState>>,
    views: &mut Hypermap,
    frame: usize,
    reducer: Reducer,
    word: i64,
) -> Result<Event, AllocError>
    requires here { frame < length frames.old.items }
    requires comes { (cells : ℕ) × HasCome frames.old.items cells frame (asks.Set reducer word) }
    ensures settles { OnOk result ((cells : ℕ) → Settles frames.old.items frames.new.items cells cells frame (asks.Set reducer word)) }
    ensures ticks { OnOk result (SameTicks frames.old.items frames.new.items) }
    ensures makes { IfOk result (λ e. (cells : List ℤ) → MakesEvent frames.old.items frames.new.items cells cells views.old views.new frame (asks.Set reducer word) e) }
    ensures same { OnErr result (frames.new.items ≡ frames.old.items) }
{
    let instance = instance_at(frames.as_slice(), frame, reducer.place);
    reducers::set(alloc, frames, views, frame, instance, reducer.kind, word)
}

/// Makes the frame's read of a reducer: the number of its view.
pub fn value(
    alloc: Global,
    frames: &mut Vec<Activation<FrameState>>,
    views: &mut Hypermap,
    frame: usize,
    reducer: Reducer,
) -> Result<Event, AllocError>
    requires here { frame < length frames.old.items }
    requires comes { (cells : ℕ) × HasCome frames.old.items cells frame (asks.Value reducer) }
    ensures settles { OnOk result ((cells : ℕ) → Settles frames.old.items frames.new.items cells cells frame (asks.Value reducer)) }
    ensures ticks { OnOk result (SameTicks frames.old.items frames.new.items) }
    ensures makes { IfOk result (λ e. (cells : List ℤ) → MakesEvent frames.old.items frames.new.items cells cells views.old views.new frame (asks.Value reducer) e) }
    ensures same { OnErr result (frames.new.items ≡ frames.old.items) }
{
    let instance = instance_at(frames.as_slice(), frame, reducer.place);
    reducers::value(alloc, frames, views, frame, instance, reducer.kind)
}

/// Makes the frame's print of a number to the ordered output.
pub fn print(
    alloc: Global,
    frames: &mut Vec<Activation<FrameState>>,
    views: &mut Hypermap,
    frame: usize,
    word: i64,
) -> Result<Event, AllocError>
    requires here { frame < length frames.old.items }
    ensures settles { OnOk result ((cells : ℕ) → Settles frames.old.items frames.new.items cells cells frame (asks.Print word)) }
    ensures ticks { OnOk result (SameTicks frames.old.items frames.new.items) }
    ensures makes { IfOk result (λ e. (cells : List ℤ) → MakesEvent frames.old.items frames.new.items cells cells views.old views.new frame (asks.Print word) e) }
    ensures same { OnErr result (frames.new.items ≡ frames.old.items) }
{
    reducers::print(alloc, frames, views, frame, word)
}
