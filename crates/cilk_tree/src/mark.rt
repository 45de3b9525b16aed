//! Marks: the events by their effect on strands.

ghost use Rattle.std.specs.Prelude.{◌≡◌};

use cilk_types::event::Event;

/// The mark of an event: its effect on strands.
#[derive(Clone, Copy)]
pub enum Mark {
    /// The first event of a frame. It begins a strand.
    Begin,
    /// The last event of a frame.
    End,
    /// A `sync`. It begins a strand and a sync block.
    Sync,
    /// The parent's first event after a child. It begins a strand.
    Resume,
    /// The event before a spawned child, which may run in parallel with the rest of its parent's
    /// block.
    Spawn,
    /// The event before a called child.
    Call,
    /// Any other event.
    Plain,
}

impl Mark {
    ghost use Rattle.cilk_tree.specs.Marks.{mark_of, begun_by};

    /// Returns the mark of an event.
    pub fn of(event: &Event) -> Mark
        ensures { result ≡ mark_of event.now }
    {
        match event {
            Event::Begin { .. } => Mark::Begin,
            Event::End => Mark::End,
            Event::Sync => Mark::Sync,
            Event::Resume { .. } => Mark::Resume,
            Event::Spawn { .. } => Mark::Spawn,
            Event::Call { .. } => Mark::Call,
            _ => Mark::Plain,
        }
    }

    /// Returns the number of strands that such an event begins: one or none.
    pub fn strands(self) -> u32
        ensures { result ≡ begun_by self }
    {
        match self {
            Mark::Begin | Mark::Sync | Mark::Resume => 1,
            _ => 0,
        }
    }
}
