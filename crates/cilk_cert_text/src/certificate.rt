//! Certificates: what a run claims about itself.

ghost use Rattle.std.specs.Prelude.{◌≡◌, ◌≤◌, IfSome, length, slice_get};

use crate::line::{Entry, Frame, Line, Size, Strand, Version};
use std::marker::Model;

/// A certificate within the limits of the format: at most 1,000,000 events, 65,536 frames and
/// 1,000,000 strands, with reducers named as in its version. Frame `k` is at index `k - 1`, and so
/// is strand `k`.
pub struct Certificate {
    version: Version,
    frames: Vec<Frame>,
    strands: Vec<Strand>,
    events: Vec<Entry>,
    result: i64,
}

// A drop function of its own keeps proofs short: they follow one call.
impl Drop for Certificate {
    fn drop(self) {
        let Certificate {
            version: _version,
            frames: _frames,
            strands: _strands,
            events: _events,
            result: _,
        } = self;
    }
}

impl Model for Certificate {
    ghost use Rattle.cilk_cert_text.specs.Certificates.{Contents, IsCertificate};

    ghost Value = { Contents };

    ghost view = { λ c. record { version = c.version; frames = c.frames.items; strands = c.strands.items; events = c.events.items; result = c.result } };

    ghost invariant = { λ c. IsCertificate (record { version = c.version; frames = c.frames.items; strands = c.strands.items; events = c.events.items; result = c.result }) };
}

impl Certificate {
    ghost use Rattle.cilk_cert_text.specs.Certificates.{Contents, IsCertificate, column_lines, late_lines, lines_of, size_of};

    /// Makes a certificate of these parts; `value` is the run's result.
    pub fn new(
        version: Version,
        frames: Vec<Frame>,
        strands: Vec<Strand>,
        events: Vec<Entry>,
        value: i64,
    ) -> Self
        requires { IsCertificate (record { version = version; frames = frames.items; strands = strands.items; events = events.items; result = value }) }
        ensures { result ≡ record { version = version; frames = frames.items; strands = strands.items; events = events.items; result = value } }
    {
        Certificate {
            version,
            frames,
            strands,
            events,
            result: value,
        }
    }

    pub fn version(&self) -> Version
        ensures value { result ≡ self.now.version }
        ensures certificate { IsCertificate self.now }
    {
        self.version
    }

    /// Returns the number of lines of each kind in its text.
    pub fn size(&self) -> Size
        ensures value { result ≡ size_of self.now }
        ensures certificate { IsCertificate self.now }
    {
        Size {
            events: self.events.len() as u32,
            frames: self.frames.len() as u32,
            strands: self.strands.len() as u32,
        }
    }

    pub fn frames(&self) -> &[Frame]
        ensures value { result.now ≡ self.now.frames }
        ensures certificate { IsCertificate self.now }
    {
        self.frames.as_slice()
    }

    pub fn strands(&self) -> &[Strand]
        ensures value { result.now ≡ self.now.strands }
        ensures certificate { IsCertificate self.now }
    {
        self.strands.as_slice()
    }

    pub fn events(&self) -> &[Entry]
        ensures value { result.now ≡ self.now.events }
        ensures certificate { IsCertificate self.now }
    {
        self.events.as_slice()
    }

    pub fn result(&self) -> i64
        ensures value { result ≡ self.now.result }
        ensures certificate { IsCertificate self.now }
    {
        self.result
    }

    /// Returns the line of its text at an index, from 0.
    pub fn line(&self, ahead: usize) -> Option<Line>
        ensures value { result ≡ slice_get (lines_of self.now) ahead }
        ensures few { IfSome result (λ _. ahead ≤ 2065539) }
    {
        match ahead {
            0 => Some(Line::Version(self.version)),
            1 => Some(Line::Size(self.size())),
            _ => self.column_line(ahead - 2),
        }
    }

    /// Returns the line at an index counted from the first line after the size line.
    fn column_line(&self, ahead: usize) -> Option<Line>
        ensures value { result ≡ slice_get (column_lines self.now) ahead }
        ensures few { IfSome result (λ _. ahead ≤ 2065537) }
    {
        let frames = self.frames();
        let strands = self.strands();
        if let Some(frame) = frames.get(ahead) {
            let (number, frame) = (ahead as u32 + 1, *frame);
            return Some(Line::Frame { number, frame });
        }
        let ahead = ahead - frames.len();
        if let Some(strand) = strands.get(ahead) {
            let (number, strand) = (ahead as u32 + 1, *strand);
            return Some(Line::Strand { number, strand });
        }
        self.late_line(ahead - strands.len())
    }

    /// Returns the line at an index counted from the first event.
    fn late_line(&self, ahead: usize) -> Option<Line>
        ensures value { result ≡ slice_get (late_lines self.now) ahead }
        ensures few { IfSome result (λ _. ahead ≤ 1000001) }
    {
        if let Some(event) = self.events.get(ahead) {
            return Some(Line::Event(*event));
        }
        match ahead - self.events.len() {
            0 => Some(Line::Result(self.result)),
            1 => Some(Line::End),
            _ => None,
        }
    }
}
