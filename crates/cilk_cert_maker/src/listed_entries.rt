//! Events of a run as entries of a certificate, and back.

ghost use Rattle.std.specs.Prelude.{◌≡◌, ◌<◌, ◌^◌, ◌++◌, ℕ, List, Some, OnErr, OnOk, take};
ghost use Rattle.cilk_types.specs.declared.event.Event.{Event};
ghost use Rattle.cilk_types.specs.declared.event.Instance.{Instance};
ghost use Rattle.cilk_cert_text.specs.declared.line.Reducer.TheVariants.{Place};
ghost use Rattle.cilk_cert_text.specs.declared.line.Version.TheVariants.{Two};
ghost use Rattle.cilk_cert_text.specs.Certificates.{IsEntry, NamesReducer};
ghost use Rattle.cilk_cert_maker.specs.Sources.{AreLast};
ghost use Rattle.cilk_cert_maker.specs.Listed.{created_by, creations, event_in, named, source_at, source_in};

use crate::sources::LastWrites;
use cilk_cert_text::line::{Entry, Reducer};
use cilk_types::event::{Event, Instance, Pos};
use std::alloc::{AllocError, Global};

/// The reducers created so far, in order of creation.
#[derive(Drop)]
pub struct Creations {
    made: Vec<Instance>,
}

impl Creations {
    /// Returns an empty list.
    pub fn new(alloc: Global) -> Creations
        ensures { (es : List Event) → result.made.items ≡ creations (take 0 es) }
    {
        Creations {
            made: Vec::new(alloc),
        }
    }

    /// Records the reducer that the next event creates, if it creates one. Nothing changes if
    /// memory runs out.
    pub fn meet(&mut self, event: &Event) -> Result<(), AllocError>
        ensures made { OnOk result (self.new.made.items ≡ self.old.made.items ++ created_by event.now) }
        ensures kept { OnErr result (self.new.made.items ≡ self.old.made.items) }
    {
        if let Event::Create { instance } = *event {
            self.made.push(instance)?;
        }
        Ok(())
    }

    // The reducer that a name means. A number means one only once that many were created.
    fn named(&self, name: Reducer) -> Option<Instance>
        ensures { result ≡ named self.now.made.items name }
    {
        match name {
            Reducer::Number(0) => None,
            Reducer::Number(number) => self.made.as_slice().get(number as usize - 1).copied(),
            Reducer::Place(instance) => Some(instance),
        }
    }

    /// Returns the event that an entry lists, or `None` if the entry's number is not that of a
    /// created reducer.
    pub fn event(&self, entry: Entry) -> Option<Event>
        ensures { result ≡ event_in self.now.made.items entry }
    {
        match entry {
            Entry::Begin { frame } => Some(Event::Begin { frame }),
            Entry::Spawn { child } => Some(Event::Spawn { child }),
            Entry::Call { child } => Some(Event::Call { child }),
            Entry::Resume { parent } => Some(Event::Resume { parent }),
            Entry::Sync => Some(Event::Sync),
            Entry::End => Some(Event::End),
            Entry::Read { cell, value, .. } => Some(Event::Read { cell, value }),
            Entry::Write { cell, value } => Some(Event::Write { cell, value }),
            Entry::Create { reducer } => {
                let instance = self.named(reducer)?;
                Some(Event::Create { instance })
            }
            Entry::Update { reducer, value } => {
                let instance = self.named(reducer)?;
                Some(Event::Update { instance, value })
            }
            Entry::Set { reducer, value } => {
                let instance = self.named(reducer)?;
                Some(Event::Set { instance, value })
            }
            Entry::Value { reducer, value } => {
                let instance = self.named(reducer)?;
                Some(Event::Value { instance, value })
            }
            Entry::Print { value } => Some(Event::Print { value }),
        }
    }
}

/// Returns the source that an entry gives, if it lists a read.
pub fn source_of(entry: Entry) -> Option<Pos>
    ensures { result ≡ source_in entry }
{
    match entry {
        Entry::Read { source, .. } => Some(source),
        _ => None,
    }
}

/// Returns the right source of an event, if it is a read. `writes` are the last writes before it.
pub fn source_due(writes: &LastWrites, event: &Event) -> Option<Pos>
    ensures { (es : List Event) (n : ℕ) → AreLast es n writes.now.positions.items → result ≡ source_at es n event.now }
{
    match *event {
        Event::Read { cell, .. } => Some(writes.of(cell)),
        _ => None,
    }
}

/// Returns the entry of version 2 that lists an event. `writes` are the last writes before it.
pub fn entry(event: &Event, writes: &LastWrites) -> Entry
    ensures event { (made : List Instance) → event_in made result ≡ Some event.now }
    ensures source { (es : List Event) (n : ℕ) → AreLast es n writes.now.positions.items → source_in result ≡ source_at es n event.now }
    ensures small { IsEntry Two result }
{
    match *event {
        Event::Begin { frame } => Entry::Begin {
            frame: number(frame),
        },
        Event::Spawn { child } => Entry::Spawn {
            child: number(child),
        },
        Event::Call { child } => Entry::Call {
            child: number(child),
        },
        Event::Resume { parent } => Entry::Resume {
            parent: number(parent),
        },
        Event::Sync => Entry::Sync,
        Event::End => Entry::End,
        Event::Read { cell, value } => Entry::Read {
            cell,
            value,
            source: writes.of(cell),
        },
        Event::Write { cell, value } => Entry::Write {
            cell: number(cell),
            value,
        },
        Event::Create { instance } => Entry::Create {
            reducer: placed(instance),
        },
        Event::Update { instance, value } => Entry::Update {
            reducer: placed(instance),
            value,
        },
        Event::Set { instance, value } => Entry::Set {
            reducer: placed(instance),
            value,
        },
        Event::Value { instance, value } => Entry::Value {
            reducer: placed(instance),
            value,
        },
        Event::Print { value } => Entry::Print { value },
    }
}

// The name of a reducer in version 2: its frame and its place there.
fn placed(instance: Instance) -> Reducer
    ensures name { result ≡ Place instance }
    ensures small { NamesReducer Two result }
{
    Reducer::Place(Instance {
        frame: number(instance.frame),
        place: number(instance.place),
    })
}

// The number itself; the contract states its range.
fn number(n: u32) -> u32
    ensures same { result ≡ n }
    ensures small { result < 2 ^ 32 }
{
    n
}
