//! The columns of a run, against which a certificate is compared.

ghost use Rattle.std.specs.Prelude.{◌≡◌, ◌↔◌, IfSome, IsTrue, Some, length, slice_get};
ghost use Rattle.cilk_cert_maker.specs.Right.{IsAt};

use cilk_cert_text::line::{Frame, Strand};
use cilk_labels::Labels;
use cilk_peers::class::Classes;
use cilk_types::event::{Event, FrameNo};
use cilk_types::trace::Trace;

/// The columns of a run: its frames, the frame, Hebrew number and peer class of each strand, and
/// its events.
pub struct Right {
    pub frames: Vec<Frame>,
    pub owners: Vec<FrameNo>,
    pub labels: Labels,
    pub classes: Classes,
    pub trace: Trace,
}

// A function of its own, so that a proof follows one call where the value is dropped.
impl Drop for Right {
    fn drop(self) {
        let Right {
            frames: _frames,
            owners: _owners,
            labels: _labels,
            classes: _classes,
            trace: _trace,
        } = self;
    }
}

impl Right {
    /// Returns the events and drops the rest.
    pub(crate) fn into_trace(self) -> Trace
        ensures { result ≡ self.trace }
    {
        let Right {
            frames: _,
            owners: _,
            labels: _,
            classes: _,
            trace,
        } = self;
        trace
    }

    /// Returns the number of frames.
    pub(crate) fn frame_count(&self) -> usize
        ensures { result ≡ length self.now.frames.items }
    {
        self.frames.as_slice().len()
    }

    /// Returns the number of strands.
    pub(crate) fn owner_count(&self) -> usize
        ensures { result ≡ length self.now.owners.items }
    {
        self.owners.as_slice().len()
    }
}

/// Returns whether the column has this frame at the index.
pub(crate) fn has_frame(column: &[Frame], place: u32, value: Frame) -> bool
    ensures { IsTrue result ↔ (slice_get column.now place ≡ Some value) }
{
    match column.get(place as usize) {
        Some(found) => *found == value,
        None => false,
    }
}

/// Returns whether the column has this number at the index.
pub(crate) fn has(column: &[u32], place: u32, value: u32) -> bool
    ensures { IsTrue result ↔ (slice_get column.now place ≡ Some value) }
{
    match column.get(place as usize) {
        Some(found) => *found == value,
        None => false,
    }
}

/// Returns whether strand number `place + 1` has this Hebrew number.
pub(crate) fn has_hebrew(labels: &Labels, place: u32, value: u32) -> bool
    ensures { IsTrue result ↔ (slice_get labels.now place ≡ Some value) }
{
    if place >= labels.count() {
        return false;
    }
    labels.hebrew(place + 1) == value
}

/// Returns whether strand number `place + 1` has this peer class.
pub(crate) fn has_class(classes: &Classes, place: u32, value: u32) -> bool
    ensures { IsTrue result ↔ (slice_get classes.now place ≡ Some value) }
{
    if place >= classes.count() {
        return false;
    }
    classes.class(place + 1) == value
}

/// Returns the event after the first `place` ones.
pub(crate) fn event_behind(events: &[Event], place: u32) -> Option<Event>
    ensures { slice_get events.now place ≡ result }
{
    events.get(place as usize).copied()
}

/// Returns the frame after the first `place` ones.
pub(crate) fn frame_behind(frames: &[Frame], place: u32) -> Option<Frame>
    ensures { slice_get frames.now place ≡ result }
{
    frames.get(place as usize).copied()
}

// Returns the number after the first `place` ones.
fn number_behind(numbers: &[u32], place: u32) -> Option<u32>
    ensures { slice_get numbers.now place ≡ result }
{
    numbers.get(place as usize).copied()
}

fn hebrew_behind(labels: &Labels, place: u32) -> Option<u32>
    ensures { slice_get labels.now place ≡ result }
{
    if place >= labels.count() {
        return None;
    }
    Some(labels.hebrew(place + 1))
}

fn class_behind(classes: &Classes, place: u32) -> Option<u32>
    ensures { slice_get classes.now place ≡ result }
{
    if place >= classes.count() {
        return None;
    }
    Some(classes.class(place + 1))
}

/// Returns the strand after the first `place` ones.
pub(crate) fn strand_behind(right: &Right, place: u32) -> Option<Strand>
    ensures owner { IfSome result (λ s. IsAt right.now.owners.items place s.frame) }
    ensures hebrew { IfSome result (λ s. IsAt right.now.labels place s.hebrew) }
    ensures class { IfSome result (λ s. IsAt right.now.classes place s.class) }
{
    let frame = number_behind(right.owners.as_slice(), place)?;
    let hebrew = hebrew_behind(&right.labels, place)?;
    let class = class_behind(&right.classes, place)?;
    Some(Strand {
        frame,
        hebrew,
        class,
    })
}
