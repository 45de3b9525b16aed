// The place of a reader in a text: which line is due.

ghost use Rattle.std.specs.Prelude.{◌≡◌, ◌+◌, ◌≤◌, [], ◌∷◌, ◌++◌, IfSome, IfNone, IsTrue, false, option_map};

use crate::line::{Column, Form, Line, Size, Version};
use crate::parse;

/// The lines due after the events.
#[derive(Clone, Copy)]
pub(crate) enum Tail {
    Result,
    End,
    Nothing,
}

/// The number of lines read after the size line.
#[derive(Clone, Copy)]
pub(crate) struct Progress {
    version: Version,
    size: Size,
    frames: u32,
    strands: u32,
    events: u32,
    tail: Tail,
    ghost few_events: { size.events ≤ 1000000 },
    ghost few_frames: { size.frames ≤ 65536 },
    ghost few_strands: { size.strands ≤ 1000000 },
    ghost frames_within: { frames ≤ size.frames },
    ghost strands_within: { strands ≤ size.strands },
    ghost events_within: { events ≤ size.events },
}

/// The place of a reader.
#[derive(Clone, Copy)]
pub(crate) enum ReaderPlace {
    Version,
    Size(Version),
    Lines(Progress),
}

impl Progress {
    ghost use Rattle.cilk_cert_text.specs.Places.{forms_left, number_left, tail_lines};
    ghost use Rattle.cilk_cert_text.specs.Lines.{is_size};
    ghost use Rattle.cilk_cert_text.specs.Reading.{event_forms, forms_of, frame_forms, strand_forms};
    ghost use Rattle.cilk_cert_text.specs.declared.line.Version.TheVariants.{Two};

    /// Makes the place directly after the size line.
    fn new(version: Version, size: Size) -> Self
        requires { IsTrue (is_size size) }
        ensures forms { forms_left result ≡ forms_of version size }
        ensures number { number_left result ≡ 3 }
    {
        Progress {
            version,
            size,
            frames: 0,
            strands: 0,
            events: 0,
            tail: Tail::Result,
        }
    }

    /// Returns the form of the next line, and the progress after it.
    fn next(self) -> Option<(Form, Progress)>
        ensures form { IfSome result (λ r. forms_left self ≡ r.0 ∷ forms_left r.1) }
        ensures number { IfSome result (λ r. number_left r.1 ≡ number_left self + 1) }
        ensures none { IfNone result (forms_left self ≡ []) }
    {
        let mut after = self;
        if self.frames < self.size.frames {
            after.frames = self.frames + 1;
            return Some((Form::Frame(after.frames), after));
        }
        if self.strands < self.size.strands {
            after.strands = self.strands + 1;
            return Some((Form::Strand(after.strands), after));
        }
        if self.events < self.size.events {
            after.events = self.events + 1;
            return Some((Form::Event(self.version), after));
        }
        match self.tail {
            Tail::Result => {
                after.tail = Tail::End;
                Some((Form::Result, after))
            }
            Tail::End => {
                after.tail = Tail::Nothing;
                Some((Form::End, after))
            }
            Tail::Nothing => None,
        }
    }

    /// Returns the progress after the lines of `count` frames, from this number on, if they are
    /// due.
    fn after_frames(self, first: u32, count: u32) -> Option<Progress>
        ensures form { IfSome result (λ p. forms_left self ≡ frame_forms first count ++ forms_left p) }
        ensures number { IfSome result (λ p. number_left p ≡ number_left self + count) }
    {
        if first != self.frames + 1 || count > self.size.frames - self.frames {
            return None;
        }
        let mut after = self;
        after.frames = self.frames + count;
        Some(after)
    }

    /// Returns the progress after the lines of `count` strands, from this number on, if they are
    /// due.
    fn after_strands(self, first: u32, count: u32) -> Option<Progress>
        ensures form { IfSome result (λ p. forms_left self ≡ strand_forms first count ++ forms_left p) }
        ensures number { IfSome result (λ p. number_left p ≡ number_left self + count) }
    {
        if self.frames < self.size.frames || first != self.strands + 1 {
            return None;
        }
        if count > self.size.strands - self.strands {
            return None;
        }
        let mut after = self;
        after.strands = self.strands + count;
        Some(after)
    }

    /// Returns the progress after the lines of `count` events in version 2, if they are due.
    fn after_events(self, count: u32) -> Option<Progress>
        ensures form { IfSome result (λ p. forms_left self ≡ event_forms Two count ++ forms_left p) }
        ensures number { IfSome result (λ p. number_left p ≡ number_left self + count) }
    {
        if self.frames < self.size.frames || self.strands < self.size.strands {
            return None;
        }
        let Version::Two = self.version else {
            return None;
        };
        if count > self.size.events - self.events {
            return None;
        }
        let mut after = self;
        after.events = self.events + count;
        Some(after)
    }

    fn tail_lines(self) -> u32
        ensures { result ≡ tail_lines self.tail }
    {
        match self.tail {
            Tail::Result => 0,
            Tail::End => 1,
            Tail::Nothing => 2,
        }
    }
}

impl ReaderPlace {
    ghost use Rattle.cilk_cert_text.specs.declared.line.Form.{Form};
    ghost use Rattle.cilk_cert_text.specs.Places.{AreDue, IsAwaited, IsDue, column_forms, count_of, due_of, line_at, number_at};
    ghost use Rattle.cilk_cert_text.specs.Reading.{Lines};

    /// Returns the number of the next line, from 1.
    pub(crate) fn number(self) -> u32
        ensures { result ≡ number_at self }
    {
        match self {
            ReaderPlace::Version => 1,
            ReaderPlace::Size(_) => 2,
            ReaderPlace::Lines(progress) => {
                let tail = progress.tail_lines();
                3 + progress.frames + progress.strands + progress.events + tail
            }
        }
    }

    /// Tells whether no line is left.
    pub(crate) fn is_finished(self) -> bool
        ensures yes { IsTrue result → due_of self ≡ Lines [] }
        ensures no { result ≡ false → due_of self ≡ Lines [] → ⊥ }
    {
        match self {
            ReaderPlace::Lines(progress) => progress.next().is_none(),
            _ => false,
        }
    }

    /// Returns the form of the next line after the size line, and the place after it.
    pub(crate) fn next(self) -> Option<(Form, ReaderPlace)>
        ensures due { IfSome result (λ r. IsDue r.0 (due_of r.1) (due_of self)) }
        ensures number { IfSome result (λ r. number_at r.1 ≡ number_at self + 1) }
        ensures few { IfSome result (λ r. number_at r.1 ≤ 2065541) }
        ensures none { IfNone result ((form : Form) → IsAwaited form (due_of self) → ⊥) }
    {
        match self {
            ReaderPlace::Lines(progress) => {
                let (form, progress) = progress.next()?;
                Some((form, ReaderPlace::Lines(progress)))
            }
            _ => None,
        }
    }

    /// Returns the place after these lines, if they are due.
    pub(crate) fn after(self, lines: Column) -> Option<ReaderPlace>
        ensures due { IfSome result (λ p. AreDue (column_forms lines) (due_of p) (due_of self)) }
        ensures number { IfSome result (λ p. number_at p ≡ number_at self + count_of lines) }
        ensures few { IfSome result (λ p. number_at p ≤ 2065541) }
    {
        let ReaderPlace::Lines(progress) = self else {
            return None;
        };
        let after = match lines {
            Column::Frames { first, count } => progress.after_frames(first, count)?,
            Column::Strands { first, count } => progress.after_strands(first, count)?,
            Column::Events { count } => progress.after_events(count)?,
        };
        Some(ReaderPlace::Lines(after))
    }

    /// Parses the next line, and returns the place after it.
    pub(crate) fn line(self, bytes: &[u8]) -> Option<(Line, ReaderPlace)>
        ensures line { option_map (λ r. (r.0, due_of r.1)) result ≡ line_at (due_of self) bytes.now }
        ensures number { IfSome result (λ r. number_at r.1 ≡ number_at self + 1) }
        ensures few { IfSome result (λ r. number_at r.1 ≤ 2065541) }
    {
        match self {
            ReaderPlace::Version => {
                let version = parse::version(bytes)?;
                Some((Line::Version(version), ReaderPlace::Size(version)))
            }
            ReaderPlace::Size(version) => {
                let size = parse::size(bytes)?;
                let progress = Progress::new(version, size);
                Some((Line::Size(size), ReaderPlace::Lines(progress)))
            }
            ReaderPlace::Lines(progress) => {
                let (form, progress) = progress.next()?;
                let line = parse::line(form, bytes)?;
                Some((line, ReaderPlace::Lines(progress)))
            }
        }
    }
}
