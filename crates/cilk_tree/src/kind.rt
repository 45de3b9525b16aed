//! Kinds of events: events without their values.

ghost use Rattle.std.specs.Prelude.{◌≡◌, All, FitsSigned};
ghost use Rattle.std.specs.Int.{w64};
ghost use Rattle.cilk_tree.specs.Kinds.{kind_of, IsOfWords};

use cilk_types::event::{Cell, Event, FrameNo, Instance};
use cilk_types::trace::Trace;

/// An event without its value.
#[derive(Clone, Copy, PartialEq, Eq)]
pub enum Kind {
    Begin { frame: FrameNo },
    Spawn { child: FrameNo },
    Call { child: FrameNo },
    Resume { parent: FrameNo },
    Sync,
    End,
    Read { cell: Cell },
    Write { cell: Cell },
    Create { instance: Instance },
    Update { instance: Instance },
    Set { instance: Instance },
    Value { instance: Instance },
    Print,
}

/// The next event of a run, as a plan knows it.
#[derive(Clone, Copy, PartialEq, Eq)]
pub enum Asked {
    /// The next event has this kind and is of this frame.
    Next { frame: FrameNo, kind: Kind },
    /// The run has ended.
    Nothing,
}

/// Returns the kind of an event.
pub fn without_value(event: &Event) -> Kind
    ensures { result ≡ kind_of event.now }
{
    match *event {
        Event::Begin { frame } => Kind::Begin { frame },
        Event::Spawn { child } => Kind::Spawn { child },
        Event::Call { child } => Kind::Call { child },
        Event::Resume { parent } => Kind::Resume { parent },
        Event::Sync => Kind::Sync,
        Event::End => Kind::End,
        Event::Read { cell, value: _ } => Kind::Read { cell },
        Event::Write { cell, value: _ } => Kind::Write { cell },
        Event::Create { instance } => Kind::Create { instance },
        Event::Update { instance, value: _ } => Kind::Update { instance },
        Event::Set { instance, value: _ } => Kind::Set { instance },
        Event::Value { instance, value: _ } => Kind::Value { instance },
        Event::Print { value: _ } => Kind::Print,
    }
}

// The value that an event reads or writes fits a word.
fn of_words(event: &Event)
    ensures { IsOfWords event.now }
{
    if let Event::Read { value, .. } | Event::Write { value, .. } = *event {
        let _read = value;
    }
}

fn word(value: &i64)
    ensures { FitsSigned w64 value.now }
{
    let _read = *value;
}

/// All values that a trace's events read and write fit a word.
pub(crate) fn events_of_words(trace: &Trace)
    ensures { All IsOfWords trace.now }
{
    'each: for event in trace.as_slice() {
        of_words(event);
    }
}

/// All these values fit a word.
pub(crate) fn words(values: &[i64])
    ensures { All (FitsSigned w64) values.now }
{
    'each: for value in values {
        word(value);
    }
}
