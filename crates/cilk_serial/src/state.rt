// The store, the counters and the events of a run in progress.

ghost use Rattle.std.specs.Prelude.{◌≡◌, ◌<◌, ℤ, List, pos, [], ◌∷◌, ◌++◌, length, slice_index_or, vec_capacity, vec_len, IfOk, OnOk};
ghost use Rattle.cilk_types.specs.declared.event.Event.{Event};
ghost use Rattle.cilk_types.specs.declared.event.Event.TheVariants as events;
ghost use Rattle.cilk_types.specs.declared.limits.TheConstants.{MAX_FRAMES};
ghost use Rattle.cilk_monoid.specs.Ranges.{same_instance};
ghost use Rattle.cilk_program.specs.Store.{clear, number_at, print, put, set, update};
ghost use Rattle.cilk_program.specs.SerialRun.{Memory};
ghost use Rattle.cilk_frames.specs.Following.{word_in};
ghost use Rattle.cilk_frames.specs.declared.cursor.Answer.TheVariants as answers;
ghost use Rattle.cilk_serial.specs.States.{Begins, Extends, Fills, Makes, Retires};

use cilk_frames::cursor::Answer;
use cilk_hypermap::hypermap::Hypermap;
use cilk_monoid::kind::MonoidKind;
use cilk_types::event::{Cell, Event, FrameNo, Instance};
use cilk_types::invocation::Invocation;
use cilk_types::limits::MAX_EVENTS;
use std::alloc::{AllocError, Global};

/// The reason why an event isn't made.
#[derive(Clone, Copy)]
pub enum Refused {
    /// The run has as many events as it may have. Nothing has changed.
    Full,
    /// Memory was refused.
    Memory,
}

impl From<AllocError> for Refused {
    ghost use Rattle.cilk_serial.specs.declared.state.Refused.TheVariants as refuseds;

    ghost from_gives = { λ _ e. e ≡ refuseds.Memory };

    fn from(_error: AllocError) -> Refused {
        Refused::Memory
    }
}

/// The cells of all frames, the reducers' views, the printed numbers and the events so far.
/// `frames` counts the frames that have begun.
#[derive(Drop)]
pub struct State {
    pub cells: Vec<i64>,
    pub views: Hypermap,
    pub output: Vec<i64>,
    pub events: Vec<Event>,
    pub frames: FrameNo,
}

impl State {
    /// Returns the last event.
    pub fn last_event(&self) -> Event
        requires { 0 < length self.now.events.items }
        ensures { (es : List Event) (e : Event) → self.now.events.items ≡ es ++ e ∷ [] → result ≡ e }
    {
        last(self.events.as_slice())
    }

    /// Makes an event without effect on the store.
    #[inline(always)]
    pub fn make(&mut self, event: Event) -> Result<Answer, Refused>
        ensures done { IfOk result (λ a. a ≡ answers.Done) }
        ensures makes { OnOk result (Makes self.old self.new (λ m. pos 0) (pos 0) (λ m. event) (λ m. m.store)) }
        ensures room { Fills result self.old.events.items self.old self.new }
    {
        add_event(&mut self.events, event)?;
        Ok(Answer::Done)
    }

    /// Reads a cell.
    #[inline(always)]
    pub fn read(&mut self, cell: Cell) -> Result<Answer, Refused>
        requires { cell < length self.old.cells.items }
        ensures value { IfOk result (λ a. a ≡ answers.Value (word_in a)) }
        ensures makes { IfOk result (λ a. Makes self.old self.new (λ m. m.store.cells cell) (word_in a) (λ m. events.Read cell (m.store.cells cell)) (λ m. m.store)) }
        ensures room { Fills result self.old.events.items self.old self.new }
    {
        let cells = self.cells.as_slice();
        let value = value_at(cells, cell);
        add_event(&mut self.events, Event::Read { cell, value })?;
        Ok(Answer::Value(value))
    }

    /// Writes a cell.
    #[inline(always)]
    pub fn write(&mut self, cell: Cell, value: i64) -> Result<Answer, Refused>
        requires { cell < length self.old.cells.items }
        ensures done { IfOk result (λ a. a ≡ answers.Done) }
        ensures makes { OnOk result (Makes self.old self.new (λ m. pos 0) (pos 0) (λ m. events.Write cell value) (λ m. put cell value m.store)) }
        ensures room { Fills result self.old.events.items self.old self.new }
    {
        add_event(&mut self.events, Event::Write { cell, value })?;
        self.cells[cell as usize] = value;
        Ok(Answer::Done)
    }

    /// Creates a reducer, whose view is its monoid's unit.
    #[inline(always)]
    pub fn create(
        &mut self,
        alloc: Global,
        instance: Instance,
        kind: MonoidKind,
    ) -> Result<Answer, Refused>
        ensures done { IfOk result (λ a. a ≡ answers.Done) }
        ensures makes { OnOk result (Makes self.old self.new (λ m. pos 0) (pos 0) (λ m. events.Create instance) (λ m. clear same_instance kind instance m.store)) }
        ensures room { Fills result self.old.events.items self.old self.new }
    {
        add_event(&mut self.events, Event::Create { instance })?;
        self.views.create(alloc, instance, kind)?;
        Ok(Answer::Done)
    }

    /// Combines a reducer's view with a number on the right.
    #[inline(always)]
    pub fn update(
        &mut self,
        alloc: Global,
        instance: Instance,
        kind: MonoidKind,
        value: i64,
    ) -> Result<Answer, Refused>
        ensures done { IfOk result (λ a. a ≡ answers.Done) }
        ensures makes { OnOk result (Makes self.old self.new (λ m. pos 0) (pos 0) (λ m. events.Update instance value) (λ m. update same_instance kind instance value m.store)) }
        ensures room { Fills result self.old.events.items self.old self.new }
    {
        add_event(&mut self.events, Event::Update { instance, value })?;
        self.views.update(alloc, instance, kind, value)?;
        Ok(Answer::Done)
    }

    /// Replaces a reducer's view by that of a number alone.
    #[inline(always)]
    pub fn set(
        &mut self,
        alloc: Global,
        instance: Instance,
        kind: MonoidKind,
        value: i64,
    ) -> Result<Answer, Refused>
        ensures done { IfOk result (λ a. a ≡ answers.Done) }
        ensures makes { OnOk result (Makes self.old self.new (λ m. pos 0) (pos 0) (λ m. events.Set instance value) (λ m. set same_instance kind instance value m.store)) }
        ensures room { Fills result self.old.events.items self.old self.new }
    {
        add_event(&mut self.events, Event::Set { instance, value })?;
        self.views.set(alloc, instance, kind, value)?;
        Ok(Answer::Done)
    }

    /// Reads the number of a reducer's view.
    #[inline(always)]
    pub fn value(
        &mut self,
        alloc: Global,
        instance: Instance,
        kind: MonoidKind,
    ) -> Result<Answer, Refused>
        ensures value { IfOk result (λ a. a ≡ answers.Value (word_in a)) }
        ensures makes { IfOk result (λ a. Makes self.old self.new (λ m. number_at kind instance m.store) (word_in a) (λ m. events.Value instance (number_at kind instance m.store)) (λ m. m.store)) }
        ensures room { Fills result self.old.events.items self.old self.new }
    {
        make_room(&mut self.events)?;
        let value = self.views.value(alloc, instance, kind)?;
        self.events.push_reserved(Event::Value { instance, value });
        Ok(Answer::Value(value))
    }

    /// Prints a number.
    #[inline(always)]
    pub fn print(&mut self, value: i64) -> Result<Answer, Refused>
        ensures done { IfOk result (λ a. a ≡ answers.Done) }
        ensures makes { OnOk result (Makes self.old self.new (λ m. pos 0) (pos 0) (λ m. events.Print value) (λ m. print value m.store)) }
        ensures room { Fills result self.old.events.items self.old self.new }
    {
        add_event(&mut self.events, Event::Print { value })?;
        match self.output.push(value) {
            Ok(()) => Ok(Answer::Done),
            Err(_) => Err(Refused::Memory),
        }
    }

    /// Retires a reducer, and drops its view.
    pub fn retire(&mut self, instance: Instance, kind: MonoidKind)
        ensures shows { Retires self.old self.new instance kind }
        ensures events { self.new.events.items ≡ self.old.events.items }
    {
        let _last = self.views.take(instance, kind);
    }

    /// Makes the event of an invocation, and adds the child's cells.
    #[inline(always)]
    pub fn begin(&mut self, how: Invocation, cells: u32) -> Result<(), AllocError>
        requires { self.old.frames < MAX_FRAMES }
        ensures { OnOk result (Begins self.old self.new how cells) }
    {
        self.frames += 1;
        let child = self.frames;
        let event = match how {
            Invocation::Call => Event::Call { child },
            Invocation::Spawn => Event::Spawn { child },
        };
        self.events.push(event)?;
        self.extend(cells)
    }

    /// Adds `count` cells with the value 0.
    pub fn extend(&mut self, count: u32) -> Result<(), AllocError>
        ensures { OnOk result (Extends self.old self.new count) }
    {
        'each: for added in 0..count {
            self.cells.push(0)?;
        }
        Ok(())
    }
}

// Appends an event. Most events find room, so this is inlined.
#[inline(always)]
fn add_event(events: &mut Vec<Event>, event: Event) -> Result<(), Refused>
    ensures items { OnOk result (events.new.items ≡ events.old.items ++ event ∷ []) }
    ensures room { Fills result events.old.items events.old events.new }
{
    make_room(events)?;
    events.push_reserved(event);
    Ok(())
}

// Makes room for one more event.
#[inline(always)]
fn make_room(events: &mut Vec<Event>) -> Result<(), Refused>
    ensures items { events.new.items ≡ events.old.items }
    ensures reserved { OnOk result (vec_len events.new < vec_capacity events.new) }
    ensures room { Fills result events.old.items events.old events.new }
{
    if events.len() >= MAX_EVENTS as usize {
        return Err(Refused::Full);
    }
    if events.len() >= events.capacity() {
        events.reserve(1)?;
    }
    Ok(())
}

fn value_at(cells: &[i64], cell: Cell) -> i64
    requires { cell < length cells.now }
    ensures { result ≡ slice_index_or cells.now cell result }
{
    cells[cell as usize]
}

fn last(events: &[Event]) -> Event
    requires { 0 < length events.now }
    ensures { (es : List Event) (e : Event) → events.now ≡ es ++ e ∷ [] → result ≡ e }
{
    events[events.len() - 1]
}
