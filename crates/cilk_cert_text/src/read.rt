//! Reading a certificate's text that is in memory.

ghost use Rattle.std.specs.Prelude.{◌≡◌, ◌≢◌, ◌++◌, List, ℕ, IfOk, IfErr, OnOk, Some, None, MatchResult};
ghost use Rattle.cilk_cert_text.specs.declared.fault.CertFault.TheVariants.{Memory};
ghost use Rattle.cilk_cert_text.specs.Certificates.{Contents, IsCertificate, text_of, lines_of};
ghost use Rattle.cilk_cert_text.specs.Reading.{reading_of};
ghost use Rattle.cilk_cert_text.specs.Readers.{ahead};
ghost use Rattle.cilk_cert_text.specs.Gathering.{nothing, gathered};
ghost use Rattle.cilk_cert_text.specs.Parts.{said, Leads, joined_pieces};

use crate::certificate::Certificate;
use crate::fault::CertFault;
use crate::line::{Entry, Frame, Line, Strand, Version};
use crate::reader::LineReader;
use std::alloc::Global;

/// The contents of the lines read so far.
#[derive(Drop)]
struct Parts {
    version: Version,
    frames: Vec<Frame>,
    strands: Vec<Strand>,
    events: Vec<Entry>,
    result: i64,
}

impl Parts {
    ghost use Rattle.cilk_cert_text.specs.Gathering.{nothing, with_said};
    ghost use Rattle.cilk_cert_text.specs.Parts.{said};

    fn new(alloc: Global) -> Self
        ensures { said result ≡ nothing }
    {
        Parts {
            version: Version::One,
            frames: Vec::new(alloc),
            strands: Vec::new(alloc),
            events: Vec::new(alloc),
            result: 0,
        }
    }

    /// Adds the contents of a line.
    fn add(&mut self, line: Line) -> Result<(), CertFault>
        ensures added { OnOk result (said self.new ≡ with_said (said self.old) line) }
        ensures memory { IfErr result (λ fault. fault ≡ Memory) }
    {
        match line {
            Line::Version(version) => self.version = version,
            // The sizes that a text claims reserve no memory: the lists grow as lines are read.
            Line::Size(_) | Line::End => {}
            Line::Frame { frame, .. } => self.frames.push(frame)?,
            Line::Strand { strand, .. } => self.strands.push(strand)?,
            Line::Event(event) => self.events.push(event)?,
            Line::Result(result) => self.result = result,
        }
        Ok(())
    }

    /// Makes the certificate.
    fn finish(self) -> Certificate
        requires { IsCertificate (said self) }
        ensures { result ≡ said self }
    {
        Certificate::new(
            self.version,
            self.frames,
            self.strands,
            self.events,
            self.result,
        )
    }
}

/// Reads the lines of a piece.
fn take(reader: &mut LineReader, parts: &mut Parts, piece: &[u8]) -> Result<(), CertFault>
    ensures lines { OnOk result ((more : List ℕ) → Leads (ahead reader.old (piece.now ++ more)) (said parts.old) (ahead reader.new more) (said parts.new)) }
    ensures fault { IfErr result (λ fault. fault ≢ Memory → (more : List ℕ) → (ahead reader.old (piece.now ++ more)).fault ≡ Some fault) }
{
    let mut rest = piece;
    'lines: while !rest.is_empty() {
        let (taken, line) = reader.next(rest)?;
        if let Some(line) = line {
            parts.add(line)?;
        }
        rest = &rest[taken..];
    }
    Ok(())
}

/// Reads the lines of a text.
fn parts_of(alloc: Global, text: &[u8]) -> Result<Parts, CertFault>
    ensures said { IfOk result (λ parts. said parts ≡ gathered nothing (reading_of text.now).lines) }
    ensures whole { OnOk result ((reading_of text.now).fault ≡ None) }
    ensures fault { IfErr result (λ fault. fault ≢ Memory → (reading_of text.now).fault ≡ Some fault) }
{
    let mut reader = LineReader::new();
    let mut parts = Parts::new(alloc);
    take(&mut reader, &mut parts, text)?;
    reader.end()?;
    Ok(parts)
}

/// Reads a certificate's text in one pass, or returns the first fault with its line.
pub fn read(alloc: Global, text: &[u8]) -> Result<Certificate, CertFault>
    // The result is a certificate, and the text is its text.
    ensures found { IfOk result (λ c. IsCertificate c × (text.now ≡ text_of c)) }
    // A certificate's text is read, unless memory runs out.
    ensures only { (c : Contents) → IsCertificate c → text.now ≡ text_of c → MatchResult result (λ d. d ≡ c) (λ fault. fault ≡ Memory) }
    // The lines are the certificate's, or the fault is the first one.
    ensures lines { IfOk result (λ c. reading_of text.now ≡ record { lines = lines_of c; fault = None }) }
    ensures fault { IfErr result (λ fault. fault ≢ Memory → (reading_of text.now).fault ≡ Some fault) }
{
    let parts = parts_of(alloc, text)?;
    Ok(parts.finish())
}

/// Reads the lines of a text in pieces.
fn parts_of_pieces(alloc: Global, pieces: &[&[u8]]) -> Result<Parts, CertFault>
    ensures said { IfOk result (λ parts. said parts ≡ gathered nothing (reading_of (joined_pieces pieces.now)).lines) }
    ensures whole { OnOk result ((reading_of (joined_pieces pieces.now)).fault ≡ None) }
    ensures fault { IfErr result (λ fault. fault ≢ Memory → (reading_of (joined_pieces pieces.now)).fault ≡ Some fault) }
{
    let mut reader = LineReader::new();
    let mut parts = Parts::new(alloc);
    for piece in pieces {
        take(&mut reader, &mut parts, piece)?;
    }
    reader.end()?;
    Ok(parts)
}

/// Reads a certificate's text in pieces, cut anywhere.
pub fn read_pieces(alloc: Global, pieces: &[&[u8]]) -> Result<Certificate, CertFault>
    ensures found { IfOk result (λ c. IsCertificate c × (joined_pieces pieces.now ≡ text_of c)) }
    ensures only { (c : Contents) → IsCertificate c → joined_pieces pieces.now ≡ text_of c → MatchResult result (λ d. d ≡ c) (λ fault. fault ≡ Memory) }
    ensures lines { IfOk result (λ c. reading_of (joined_pieces pieces.now) ≡ record { lines = lines_of c; fault = None }) }
    ensures fault { IfErr result (λ fault. fault ≢ Memory → (reading_of (joined_pieces pieces.now)).fault ≡ Some fault) }
{
    let parts = parts_of_pieces(alloc, pieces)?;
    Ok(parts.finish())
}
