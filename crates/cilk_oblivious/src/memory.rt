//! Which cells and reducers hold a word that may differ between two inputs.

ghost use Rattle.std.specs.Prelude.{◌≡◌, ◌<◌, ◌&&◌, ◌||◌, true, false, ℕ, length, nat_eq, slice_index_or, IfOk, IfSome, OnOk, if◌then◌else◌};
ghost use Rattle.std.specs.HashSet.{contains};
ghost use Rattle.cilk_monoid.specs.Ranges.{same_instance};
ghost use Rattle.cilk_frames.specs.declared.cursor.Answer.TheVariants as Answer;
ghost use Rattle.cilk_types.specs.declared.event.Instance.{Instance};
ghost use Rattle.cilk_program.specs.SerialRun.{Frame, IsInner, Memory, event_of};
ghost use Rattle.cilk_frames.specs.AskSlot.{in_full};
ghost use Rattle.cilk_frames.specs.Following.{Fits, owed_for};
ghost use Rattle.cilk_oblivious.specs.Open.{first_mark};
ghost use Rattle.cilk_oblivious.specs.Watching.{Answered, labels_in};

use cilk_frames::cursor::Answer;
use cilk_frames::small_ask::SmallAsk;
use cilk_types::event::{Cell, Event, Instance};
use std::alloc::{AllocError, Global};
use std::collections::HashSet;

/// The marks of cells by number, up to the greatest that was marked, and the reducers whose views have taken a marked word.
#[derive(Drop)]
pub struct MarkedMemory {
    pub cells: Vec<bool>,
    pub views: HashSet<Instance>,
}

/// The answer to a request, and its mark.
#[derive(Clone, Copy)]
pub struct MarkedAnswer {
    pub answer: Answer,
    pub mark: bool,
}

impl MarkedMemory {
    /// No cell and no reducer is marked. Cells past the end of `cells` aren't.
    pub fn new(alloc: Global) -> MarkedMemory {
        MarkedMemory {
            cells: Vec::new(alloc),
            views: HashSet::new(alloc),
        }
    }

    /// Answers a request after which the frame continues at once, as the event says, and marks what the
    /// event changes. `sent` are the marks of the words that the request sends. `None` if the event isn't
    /// the request's.
    pub fn answer(
        &mut self,
        ask: &SmallAsk,
        sent: &[bool],
        event: &Event,
    ) -> Result<Option<MarkedAnswer>, AllocError>
        ensures { IfOk result (λ o. IfSome o (λ x. IsInner (in_full ask.now) × Fits (owed_for (in_full ask.now)) x.answer
            × ((fr : Frame) (m : Memory) → event.now ≡ event_of fr m (in_full ask.now) → Answered (labels_in self.old) (in_full ask.now) sent.now fr m x.answer x.mark (labels_in self.new)))) }
    {
        match (ask, event) {
            (SmallAsk::Begin, Event::Begin { frame: _ })
            | (SmallAsk::Resume, Event::Resume { parent: _ })
            | (SmallAsk::Sync, Event::Sync)
            | (SmallAsk::Print(_), Event::Print { value: _ })
            | (SmallAsk::Create(_), Event::Create { instance: _ }) => Ok(Some(done())),
            (SmallAsk::Read(_), Event::Read { cell, value }) => Ok(Some(MarkedAnswer {
                answer: Answer::Value(*value),
                mark: self.is_marked(*cell),
            })),
            (SmallAsk::Value(_), Event::Value { instance, value }) => Ok(Some(MarkedAnswer {
                answer: Answer::Value(*value),
                mark: self.is_view_marked(*instance),
            })),
            (SmallAsk::Write(_, _), Event::Write { cell, value: _ }) => {
                self.mark(*cell, first(sent))?;
                Ok(Some(done()))
            }
            (SmallAsk::Result(_), Event::Write { cell, value: _ }) => {
                self.mark_more(*cell, first(sent))?;
                Ok(Some(done()))
            }
            (SmallAsk::Update(_, _), Event::Update { instance, value: _ }) => {
                self.mark_view(*instance, first(sent))?;
                Ok(Some(done()))
            }
            (SmallAsk::Set(_, _), Event::Set { instance, value: _ }) => {
                self.mark_view(*instance, first(sent))?;
                Ok(Some(done()))
            }
            _ => Ok(None),
        }
    }

    // Whether a cell is marked.
    fn is_marked(&self, cell: Cell) -> bool
        ensures { result ≡ slice_index_or self.now.cells.items cell false }
    {
        match self.cells.get(cell as usize) {
            Some(mark) => *mark,
            None => false,
        }
    }

    // Whether a reducer's view is marked.
    fn is_view_marked(&self, instance: Instance) -> bool
        ensures { result ≡ contains same_instance self.now.views instance }
    {
        self.views.contains(&instance)
    }

    // Makes room for the marks of the cells up to this one.
    fn reach(&mut self, cell: usize) -> Result<(), AllocError>
        ensures there { OnOk result (cell < length self.new.cells.items) }
        ensures same { OnOk result ((n : ℕ) → slice_index_or self.new.cells.items n false ≡ slice_index_or self.old.cells.items n false) }
        ensures views { OnOk result (self.new.views ≡ self.old.views) }
    {
        'grow: while self.cells.len() <= cell {
            self.cells.push(false)?;
        }
        Ok(())
    }

    // Gives a cell this mark.
    fn mark(&mut self, cell: Cell, mark: bool) -> Result<(), AllocError>
        ensures cells { OnOk result ((n : ℕ) → slice_index_or self.new.cells.items n false ≡ (if nat_eq cell n then mark else slice_index_or self.old.cells.items n false)) }
        ensures views { OnOk result (self.new.views ≡ self.old.views) }
    {
        let cell = cell as usize;
        if !mark && cell >= self.cells.len() {
            return Ok(());
        }
        self.reach(cell)?;
        self.cells[cell] = mark;
        Ok(())
    }

    // Marks a cell, if this mark is true.
    fn mark_more(&mut self, cell: Cell, mark: bool) -> Result<(), AllocError>
        ensures cells { OnOk result ((n : ℕ) → slice_index_or self.new.cells.items n false ≡ (if nat_eq cell n then mark || slice_index_or self.old.cells.items cell false else slice_index_or self.old.cells.items n false)) }
        ensures views { OnOk result (self.new.views ≡ self.old.views) }
    {
        let more = mark || self.is_marked(cell);
        self.mark(cell, more)
    }

    // Marks a reducer's view, if this mark is true.
    fn mark_view(&mut self, instance: Instance, mark: bool) -> Result<(), AllocError>
        ensures cells { OnOk result (self.new.cells ≡ self.old.cells) }
        ensures views { OnOk result ((i : Instance) → contains same_instance self.new.views i ≡ (if mark && same_instance instance i then true else contains same_instance self.old.views i)) }
    {
        if mark {
            self.views.insert(instance)?;
        }
        Ok(())
    }
}

fn done() -> MarkedAnswer
    ensures { result ≡ record { answer = Answer.Done; mark = false } }
{
    MarkedAnswer {
        answer: Answer::Done,
        mark: false,
    }
}

// The first mark, false if there is none.
fn first(marks: &[bool]) -> bool
    ensures { result ≡ first_mark marks.now }
{
    match marks.first() {
        Some(mark) => *mark,
        None => false,
    }
}
