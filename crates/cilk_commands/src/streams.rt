//! Reads and writes of whole texts.

ghost use Rattle.std.specs.Prelude.{◌≡◌, ◌+◌, ◌≤◌, ◌<◌, length, take, true, IsTrue, IsFalse, IfOk, IfSome, OnOk, Err};
ghost use Rattle.std.specs.Io.KnownBytes.{Appends, Consumes};
ghost use Rattle.cilk_cert_text.specs.Certificates.{text_of};
ghost use Rattle.cilk_commands.specs.Streams.{AppendsPart, ReadsOn, TakesAtMost};

use crate::counted::CountedRead;
use crate::files::FileFault;
use cilk_cert_text::certificate::Certificate;
use cilk_cert_text::writer::LineWriter;
use cilk_types::limits::MAX_TEXT;
use std::alloc::Global;
use std::io::Write;

/// The most bytes that are read from standard input: one more than a program text may have.
pub const MAX_READ: usize = MAX_TEXT + 1;

const PIECE: usize = 4096;

// The most bytes of a certificate's text in one write, from a fixed array: a certificate that goes out
// isn't cut off when memory runs out.
const MAX_PIECE: usize = 16_384;

// Reads once, and appends the bytes to the text. The count is 0 only at the end of the input.
#[tactic(auto, using(crate::proofs::Reading::takes_none, crate::proofs::Reading::takes_read))]
fn receive_some<R: CountedRead>(
    input: &mut R,
    text: &mut Vec<u8>,
    piece: &mut [u8],
) -> Result<usize, FileFault>
    requires room { 0 < length piece.old }
    ensures grows { IfOk result (λ n. ReadsOn (R.remaining input.old) (R.remaining input.new) text.old.items text.new.items n) }
    ensures within { IfOk result (λ n. n ≤ length piece.old) }
    ensures device { result ≡ Err FileFault.Device → R.failed input.new ≡ true }
    ensures memory { result ≡ Err FileFault.Memory → R.failed input.new ≡ R.failed input.old }
    ensures unfailed { OnOk result (R.failed input.new ≡ R.failed input.old) }
    ensures one { R.reads input.new ≤ R.reads input.old + 1 }
    ensures some { TakesAtMost (length piece.old) (R.remaining input.old) (R.remaining input.new) }
{
    let Ok(count) = input.read(piece) else {
        return Err(FileFault::Device);
    };
    text.extend_from_slice(&piece[..count])?;
    Ok(count)
}

/// Reads a text of at most [`MAX_READ`] bytes; later bytes remain unread.
///
/// It makes at most as many reads. A failed read ends the reading, and is its only failure of a device.
pub fn receive<R: CountedRead>(alloc: Global, input: &mut R) -> Result<Vec<u8>, FileFault>
    ensures whole { IfOk result (λ text. IfSome (R.remaining input.old) (λ all. text.items ≡ take MAX_READ all)) }
    ensures taken { IfOk result (λ text. Consumes (R.remaining input.old) (R.remaining input.new) text.items) }
    ensures device { result ≡ Err FileFault.Device → R.failed input.new ≡ true }
    ensures memory { result ≡ Err FileFault.Memory → R.failed input.new ≡ R.failed input.old }
    ensures unfailed { OnOk result (R.failed input.new ≡ R.failed input.old) }
    ensures most { TakesAtMost MAX_READ (R.remaining input.old) (R.remaining input.new) }
    ensures few { R.reads input.new ≤ R.reads input.old + MAX_READ }
{
    let mut text = Vec::new(alloc);
    let mut buffer = [0u8; PIECE];
    for _turn in 0..MAX_READ {
        let room = (MAX_READ - text.len()).min(PIECE);
        if room == 0 {
            return Ok(text);
        }
        let count = receive_some(input, &mut text, &mut buffer[..room])?;
        if count == 0 {
            return Ok(text);
        }
    }
    Ok(text)
}

/// Writes a text, and returns whether all of it was written.
///
/// A write that fails or accepts no byte ends the writing. Then only a beginning of the text was
/// written.
pub fn send<W: Write>(out: &mut W, text: &[u8]) -> bool
    ensures all { IsTrue result → Appends (W.contents out.old) (W.contents out.new) text.now }
    ensures part { IsFalse result → AppendsPart (W.contents out.old) (W.contents out.new) text.now }
{
    let mut done = 0;
    while done < text.len() {
        match out.write(&text[done..]) {
            Ok(count) if count > 0 => done += count,
            _ => return false,
        }
    }
    true
}

/// Writes the text of a certificate in pieces, without allocating, and returns whether all of it
/// was written.
///
/// A write that fails or accepts no byte ends the writing. Then only a beginning of the text was
/// written.
pub fn send_certificate<W: Write>(out: &mut W, certificate: &Certificate) -> bool
    ensures all { IsTrue result → Appends (W.contents out.old) (W.contents out.new) (text_of certificate.now) }
    ensures part { IsFalse result → AppendsPart (W.contents out.old) (W.contents out.new) (text_of certificate.now) }
{
    let mut lines = LineWriter::new(certificate);
    let mut piece = [0u8; MAX_PIECE];
    let mut count = lines.fill(&mut piece);
    'pieces: while count > 0 {
        if !send(out, &piece[..count]) {
            return false;
        }
        count = lines.fill(&mut piece);
    }
    true
}
