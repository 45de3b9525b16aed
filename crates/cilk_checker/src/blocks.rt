// Right lines of a run, spelled one after the other, so that they are compared all at once.

ghost use Rattle.std.specs.Prelude.{◌≡◌, ◌<◌, ◌≤◌, ◌+◌, ◌-◌, ◌^◌, false, IfOk, OnOk, length, take};
ghost use Rattle.cilk_cert_text.specs.declared.line.Form.TheVariants as forms;
ghost use Rattle.cilk_cert_text.specs.declared.line.Line.TheVariants as lines;
ghost use Rattle.cilk_cert_text.specs.declared.line.Version.TheVariants.{Two};
ghost use Rattle.cilk_cert_text.specs.Certificates.{Contents, IsAt};
ghost use Rattle.cilk_cert_text.specs.Reading.{event_forms, frame_forms, strand_forms};
ghost use Rattle.cilk_cert_maker.specs.Sources.{AllFit};
ghost use Rattle.cilk_checker.specs.Expected.{DifferInEvents, Spells};
ghost use Rattle.cilk_checker.specs.Tallies.{AreFew, Tallied};

use crate::first::First;
use crate::right::{Right, event_behind, frame_behind, strand_behind};
use crate::tally::Tally;
use cilk_cert_maker::listed_entries::{Creations, entry};
use cilk_cert_maker::sources::LastWrites;
use cilk_cert_text::line::{Frame, Line, Strand};
use cilk_cert_text::spelling::{ROOM, put_event, put_line};
use std::alloc::{AllocError, Global};

// The number itself; the contract states its range.
fn number(n: u32) -> u32
    ensures same { result ≡ n }
    ensures small { result < 2 ^ 32 }
{
    n
}

fn frame_line(n: u32, frame: Frame) -> Line
    ensures line { result ≡ lines.Frame n frame }
    ensures fits { IsAt (forms.Frame n) result }
{
    let frame = Frame {
        parent: number(frame.parent),
        ordinal: number(frame.ordinal),
    };
    Line::Frame {
        number: number(n),
        frame,
    }
}

fn strand_line(n: u32, strand: Strand) -> Line
    ensures line { result ≡ lines.Strand n strand }
    ensures fits { IsAt (forms.Strand n) result }
{
    let strand = Strand {
        frame: number(strand.frame),
        hebrew: number(strand.hebrew),
        class: number(strand.class),
    };
    Line::Strand {
        number: number(n),
        strand,
    }
}

/// Spells the lines of the frames that come next while there is room for them, counts them as
/// right, and returns where they end.
pub(crate) fn spell_frames(tally: &mut Tally, right: &Right, room: &mut [u8]) -> usize
    requires few { AreFew right.now }
    requires agree { tally.old.frames.differs ≡ false }
    ensures spells { Spells right.now (frame_forms (tally.old.frames.agreed + 1) (tally.new.frames.agreed - tally.old.frames.agreed))
        tally.old tally.new (take result room.new) }
    ensures within { result ≤ length room.old }
    ensures more { tally.old.frames.agreed ≤ tally.new.frames.agreed }
    ensures same { tally.new ≡ record tally.old { frames = tally.new.frames } }
{
    let mut done = 0;
    'frames: while room.len() - done >= ROOM {
        let Some(frame) = frame_behind(right.frames.as_slice(), tally.frames.agreed) else {
            return done;
        };
        tally.frames.meet(true);
        let line = frame_line(tally.frames.agreed, frame);
        done = put_line(room, done, line);
    }
    done
}

/// Spells the lines of the strands that come next while there is room for them, counts them as
/// right, and returns where they end.
pub(crate) fn spell_strands(tally: &mut Tally, right: &Right, room: &mut [u8]) -> usize
    requires few { AreFew right.now }
    requires agree { tally.old.owners.differs ≡ false }
    requires hebrews { tally.old.hebrews ≡ tally.old.owners }
    requires classes { tally.old.classes ≡ tally.old.owners }
    ensures spells { Spells right.now (strand_forms (tally.old.owners.agreed + 1) (tally.new.owners.agreed - tally.old.owners.agreed))
        tally.old tally.new (take result room.new) }
    ensures within { result ≤ length room.old }
    ensures more { tally.old.owners.agreed ≤ tally.new.owners.agreed }
    ensures same { tally.new
        ≡ record tally.old { owners = tally.new.owners; hebrews = tally.new.owners; classes = tally.new.owners } }
{
    let mut done = 0;
    'strands: while room.len() - done >= ROOM {
        let Some(strand) = strand_behind(right, tally.owners.agreed) else {
            return done;
        };
        tally.owners.meet(true);
        tally.hebrews = tally.owners;
        tally.classes = tally.owners;
        let line = strand_line(tally.owners.agreed, strand);
        done = put_line(room, done, line);
    }
    done
}

/// Spells the lines of the events that come next, in version 2, while there is room for them,
/// counts them as right, and returns where they end.
pub(crate) fn spell_events(
    tally: &mut Tally,
    right: &Right,
    room: &mut [u8],
) -> Result<usize, AllocError>
    requires few { AreFew right.now }
    requires agree { tally.old.events.differs ≡ false }
    requires sources { tally.old.sources ≡ tally.old.events }
    requires fit { AllFit (length tally.old.writes.positions.items) right.now.trace }
    ensures spells { IfOk result (λ end. Spells right.now (event_forms Two (tally.new.events.agreed - tally.old.events.agreed))
        tally.old tally.new (take end room.new)) }
    ensures within { IfOk result (λ end. end ≤ length room.old) }
    ensures more { OnOk result (tally.old.events.agreed ≤ tally.new.events.agreed) }
    ensures rest { OnOk result (DifferInEvents tally.old tally.new) }
{
    let mut done = 0;
    'events: while room.len() - done >= ROOM {
        let Some(event) = event_behind(right.trace.as_slice(), tally.events.agreed) else {
            return Ok(done);
        };
        done = put_event(room, done, entry(&event, &tally.writes));
        tally.made.meet(&event)?;
        tally.events.meet(true);
        tally.sources = tally.events;
        tally.writes.meet(&event, tally.events.agreed);
    }
    Ok(done)
}

/// Goes back to the state after the first events, which are all right.
pub(crate) fn events_again(
    alloc: Global,
    tally: &mut Tally,
    right: &Right,
    first: First,
) -> Result<(), AllocError>
    requires within { first.agreed ≤ length right.now.trace }
    requires fit { AllFit (length tally.old.writes.positions.items) right.now.trace }
    ensures { OnOk result ((c : Contents) (t : Tally) → DifferInEvents t tally.old → t.events ≡ first → t.sources ≡ first
        → Tallied right.now c t → Tallied right.now c tally.new) }
{
    let events = right.trace.as_slice();
    let cells = tally.writes.positions.as_slice().len();
    let mut writes = LastWrites::new(alloc, cells)?;
    let mut made = Creations::new(alloc);
    let mut at = 0;
    'events: while at < first.agreed {
        let event = events[at as usize];
        made.meet(&event)?;
        at += 1;
        writes.meet(&event, at);
    }
    tally.events = first;
    tally.sources = first;
    tally.writes = writes;
    tally.made = made;
    Ok(())
}
