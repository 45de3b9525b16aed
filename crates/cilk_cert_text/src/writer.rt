//! Writing a certificate's text in pieces.

ghost use Rattle.std.specs.Prelude.{◌≡◌, ◌+◌, ◌≤◌, [], ◌∷◌, ◌++◌, length, take};
ghost use Rattle.cilk_cert_text.specs.Certificates.{lines_of, text_of_lines};
ghost use Rattle.cilk_cert_text.specs.Lines.{spelled};
ghost use Rattle.cilk_cert_text.specs.Writers.{left};

use crate::certificate::Certificate;
use crate::line::Line;
use crate::spelling::{ROOM, put_event, put_line};

/// Writes a certificate's text in pieces of whole lines, into a buffer of the caller. It doesn't
/// allocate.
#[derive(Drop)]
pub struct LineWriter<'c> {
    certificate: &'c Certificate,
    // The number of lines written.
    written: usize,
}

impl<'c> LineWriter<'c> {
    /// Makes a writer at the first line.
    pub fn new(certificate: &'c Certificate) -> Self
        ensures { left result ≡ lines_of certificate.entry.now }
    {
        LineWriter {
            certificate,
            written: 0,
        }
    }

    /// Writes the lines of frames that come next, while there is room, and returns where they end.
    fn put_frames(&mut self, room: &mut [u8], at: usize) -> usize
        requires { at ≤ length room.old }
        ensures text { take at room.old ++ text_of_lines (left self.old) ≡ take result room.new ++ text_of_lines (left self.new) }
        ensures within { result ≤ length room.old }
        ensures more { at ≤ result }
    {
        let frames = self.certificate.frames();
        let mut done = at;
        'frames: while self.written >= 2 && room.len() - done >= ROOM {
            let index = self.written - 2;
            let Some(frame) = frames.get(index) else {
                return done;
            };
            let (number, frame) = (index as u32 + 1, *frame);
            done = put_line(room, done, Line::Frame { number, frame });
            self.written += 1;
        }
        done
    }

    /// Writes the lines of strands that come next, while there is room, and returns where they end.
    fn put_strands(&mut self, room: &mut [u8], at: usize) -> usize
        requires { at ≤ length room.old }
        ensures text { take at room.old ++ text_of_lines (left self.old) ≡ take result room.new ++ text_of_lines (left self.new) }
        ensures within { result ≤ length room.old }
        ensures more { at ≤ result }
    {
        let first = 2 + self.certificate.frames().len();
        let strands = self.certificate.strands();
        let mut done = at;
        'strands: while self.written >= first && room.len() - done >= ROOM {
            let index = self.written - first;
            let Some(strand) = strands.get(index) else {
                return done;
            };
            let (number, strand) = (index as u32 + 1, *strand);
            done = put_line(room, done, Line::Strand { number, strand });
            self.written += 1;
        }
        done
    }

    /// Writes the lines of events that come next, while there is room, and returns where they end.
    fn put_events(&mut self, room: &mut [u8], at: usize) -> usize
        requires { at ≤ length room.old }
        ensures text { take at room.old ++ text_of_lines (left self.old) ≡ take result room.new ++ text_of_lines (left self.new) }
        ensures within { result ≤ length room.old }
        ensures more { at ≤ result }
    {
        let first = 2 + self.certificate.frames().len() + self.certificate.strands().len();
        let events = self.certificate.events();
        let mut done = at;
        'events: while self.written >= first && room.len() - done >= ROOM {
            let Some(event) = events.get(self.written - first) else {
                return done;
            };
            done = put_event(room, done, *event);
            self.written += 1;
        }
        done
    }

    /// Writes lines into the buffer while it has room for the longest line, and returns the number
    /// of bytes written. This is 0 only if no line is left.
    pub fn fill(&mut self, room: &mut [u8]) -> usize
        requires { 64 ≤ length room.old }
        ensures text { text_of_lines (left self.old) ≡ take result room.new ++ text_of_lines (left self.new) }
        ensures within { result ≤ length room.old }
        ensures last { result ≡ 0 → left self.new ≡ [] }
    {
        let mut done = 0;
        'lines: while room.len() - done >= ROOM {
            done = self.put_frames(room, done);
            done = self.put_strands(room, done);
            done = self.put_events(room, done);
            if room.len() - done < ROOM {
                return done;
            }
            let Some(line) = self.certificate.line(self.written) else {
                return done;
            };
            done = put_line(room, done, line);
            self.written += 1;
        }
        done
    }
}
