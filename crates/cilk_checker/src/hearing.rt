//! Reads pieces of a certificate's text as lines and compares them with the run.

ghost use Rattle.std.specs.Prelude.{◌≡◌, ◌≤◌, ◌<◌, ◌+◌, ℕ, List, [], ◌++◌, IfErr, IfOk, OnOk, length, drop};
ghost use Rattle.cilk_cert_text.specs.Gathering.{nothing};
ghost use Rattle.cilk_cert_text.specs.Readers.{room_of};
ghost use Rattle.cilk_checker.specs.Answers.{IsUncounted};
ghost use Rattle.cilk_checker.specs.Tallies.{AreFew, Heard, IsFaultOf, Tallied};
ghost use Rattle.cilk_checker.specs.Stops.{IsHeard, IsStop};
ghost use Rattle.cilk_checker.specs.Pulls.{IsEarly, TakesAll, TakesUntil};
ghost use Rattle.cilk_checker.specs.Told.{told};

use crate::blocks::{events_again, spell_events, spell_frames, spell_strands};
use crate::right::Right;
use crate::source::{PullFault, Source};
use crate::tally::Tally;
use cilk_cert_text::fault::CertFault;
use cilk_cert_text::line::Column;
use cilk_cert_text::reader::LineReader;
use cilk_cert_text::spelling::ROOM;
use std::alloc::{AllocError, Global};

// Reads a line, or the part of one that is there, and returns how many bytes were read. The
// expected line is tried first, without parsing.
fn hear_line(
    reader: &mut LineReader,
    tally: &mut Tally,
    right: &Right,
    piece: &[u8],
) -> Result<usize, CertFault>
    requires few { AreFew right.now }
    requires heard { (text : List ℕ) × Heard right.now text piece.now reader.old tally.old }
    ensures line { (text : List ℕ) → Heard right.now text piece.now reader.old tally.old
        → IfOk result (λ n. Heard right.now text (drop n piece.now) reader.new tally.new) }
    ensures within { IfOk result (λ n. n ≤ length piece.now) }
    ensures room { IfOk result (λ n. room_of reader.new + n ≤ room_of reader.old) }
    ensures progress { IfOk result (λ n. n ≡ 0 → piece.now ≡ []) }
    ensures fault { (text : List ℕ) → Heard right.now text piece.now reader.old tally.old
        → IfErr result (λ fault. IsFaultOf text fault) }
    ensures early { IfErr result (λ fault. IsEarly fault) }
{
    if let Some(line) = tally.due(right) {
        if let Some(taken) = reader.pass(piece, line) {
            tally.meet(right, line)?;
            return Ok(taken);
        }
    }
    let (taken, line) = reader.next(piece)?;
    if let Some(line) = line {
        tally.meet(right, line)?;
    }
    Ok(taken)
}

// The lines that are spelled at once have this many bytes at most.
const BLOCK: usize = 4096;

// Room for the lines that are spelled at once. It is closed for good once they differ from the
// text: then each line is read alone.
#[derive(Drop)]
struct Block {
    bytes: [u8; BLOCK],
    is_open: bool,
}

impl Block {
    fn new() -> Block {
        Block {
            bytes: [0; BLOCK],
            is_open: true,
        }
    }
}

// Reads lines of frames as long as they are the expected ones, and returns how many bytes were
// read.
fn hear_frames(
    block: &mut Block,
    reader: &mut LineReader,
    tally: &mut Tally,
    right: &Right,
    piece: &[u8],
) -> usize
    requires few { AreFew right.now }
    requires more { tally.old.frames.agreed < length right.now.frames.items }
    ensures lines { (text : List ℕ) → Heard right.now text piece.now reader.old tally.old
        → Heard right.now text (drop result piece.now) reader.new tally.new }
    ensures within { result ≤ length piece.now }
    ensures room { room_of reader.new + result ≤ room_of reader.old }
{
    let before = tally.frames;
    let first = before.agreed + 1;
    if before.differs || !reader.awaits(Column::Frames { first, count: 1 }) {
        return 0;
    }
    let room = &mut block.bytes[..piece.len().min(BLOCK)];
    let end = spell_frames(tally, right, room);
    let count = tally.frames.agreed - before.agreed;
    if reader.pass_all(piece, &room[..end], Column::Frames { first, count }) {
        return end;
    }
    block.is_open = false;
    tally.frames = before;
    0
}

// Reads lines of strands as long as they are the expected ones, and returns how many bytes were
// read.
fn hear_strands(
    block: &mut Block,
    reader: &mut LineReader,
    tally: &mut Tally,
    right: &Right,
    piece: &[u8],
) -> usize
    requires few { AreFew right.now }
    requires more { tally.old.owners.agreed < length right.now.owners.items }
    ensures lines { (text : List ℕ) → Heard right.now text piece.now reader.old tally.old
        → Heard right.now text (drop result piece.now) reader.new tally.new }
    ensures within { result ≤ length piece.now }
    ensures room { room_of reader.new + result ≤ room_of reader.old }
{
    let before = tally.owners;
    let first = before.agreed + 1;
    if before.differs || tally.hebrews != before || tally.classes != before {
        return 0;
    }
    if !reader.awaits(Column::Strands { first, count: 1 }) {
        return 0;
    }
    let room = &mut block.bytes[..piece.len().min(BLOCK)];
    let end = spell_strands(tally, right, room);
    let count = tally.owners.agreed - before.agreed;
    if reader.pass_all(piece, &room[..end], Column::Strands { first, count }) {
        return end;
    }
    block.is_open = false;
    tally.owners = before;
    tally.hebrews = before;
    tally.classes = before;
    0
}

// Reads lines of events as long as they are the expected ones, in version 2, and returns how many
// bytes were read.
fn hear_events(
    alloc: Global,
    block: &mut Block,
    reader: &mut LineReader,
    tally: &mut Tally,
    right: &Right,
    piece: &[u8],
) -> Result<usize, AllocError>
    requires few { AreFew right.now }
    requires heard { (text : List ℕ) × Heard right.now text piece.now reader.old tally.old }
    ensures lines { (text : List ℕ) → Heard right.now text piece.now reader.old tally.old
        → IfOk result (λ n. Heard right.now text (drop n piece.now) reader.new tally.new) }
    ensures within { IfOk result (λ n. n ≤ length piece.now) }
    ensures room { IfOk result (λ n. room_of reader.new + n ≤ room_of reader.old) }
{
    let before = tally.events;
    if before.differs || tally.sources != before {
        return Ok(0);
    }
    if before.agreed as usize >= right.trace.len() || !reader.awaits(Column::Events { count: 1 }) {
        return Ok(0);
    }
    let room = &mut block.bytes[..piece.len().min(BLOCK)];
    let end = spell_events(tally, right, room)?;
    let count = tally.events.agreed - before.agreed;
    if reader.pass_all(piece, &room[..end], Column::Events { count }) {
        return Ok(end);
    }
    block.is_open = false;
    events_again(alloc, tally, right, before)?;
    Ok(0)
}

// Reads lines as long as they are the expected ones, and returns how many bytes were read.
fn hear_block(
    alloc: Global,
    block: &mut Block,
    reader: &mut LineReader,
    tally: &mut Tally,
    right: &Right,
    piece: &[u8],
) -> Result<usize, AllocError>
    requires few { AreFew right.now }
    requires heard { (text : List ℕ) × Heard right.now text piece.now reader.old tally.old }
    ensures lines { (text : List ℕ) → Heard right.now text piece.now reader.old tally.old
        → IfOk result (λ n. Heard right.now text (drop n piece.now) reader.new tally.new) }
    ensures within { IfOk result (λ n. n ≤ length piece.now) }
    ensures room { IfOk result (λ n. room_of reader.new + n ≤ room_of reader.old) }
{
    if !block.is_open || piece.len() < ROOM {
        return Ok(0);
    }
    if (tally.frames.agreed as usize) < right.frame_count() {
        return Ok(hear_frames(block, reader, tally, right, piece));
    }
    if (tally.owners.agreed as usize) < right.owner_count() {
        return Ok(hear_strands(block, reader, tally, right, piece));
    }
    hear_events(alloc, block, reader, tally, right, piece)
}

// Reads as many lines as are the expected ones, or else one line or the part of one that is there,
// and returns how many bytes were read.
fn hear_next(
    alloc: Global,
    block: &mut Block,
    reader: &mut LineReader,
    tally: &mut Tally,
    right: &Right,
    piece: &[u8],
) -> Result<usize, CertFault>
    requires few { AreFew right.now }
    requires heard { (text : List ℕ) × Heard right.now text piece.now reader.old tally.old }
    ensures line { (text : List ℕ) → Heard right.now text piece.now reader.old tally.old
        → IfOk result (λ n. Heard right.now text (drop n piece.now) reader.new tally.new) }
    ensures within { IfOk result (λ n. n ≤ length piece.now) }
    ensures room { IfOk result (λ n. room_of reader.new + n ≤ room_of reader.old) }
    ensures progress { IfOk result (λ n. n ≡ 0 → piece.now ≡ []) }
    ensures fault { (text : List ℕ) → Heard right.now text piece.now reader.old tally.old
        → IfErr result (λ fault. IsFaultOf text fault) }
    ensures early { IfErr result (λ fault. IsEarly fault) }
{
    let passed = hear_block(alloc, block, reader, tally, right, piece)?;
    if passed > 0 {
        return Ok(passed);
    }
    hear_line(reader, tally, right, piece)
}

// Reads a piece of the text.
fn hear(
    alloc: Global,
    block: &mut Block,
    reader: &mut LineReader,
    tally: &mut Tally,
    right: &Right,
    piece: &[u8],
) -> Result<(), CertFault>
    requires few { AreFew right.now }
    requires heard { (text : List ℕ) × Heard right.now text [] reader.old tally.old }
    ensures lines { (text : List ℕ) → Heard right.now text [] reader.old tally.old
        → OnOk result (Heard right.now (text ++ piece.now) [] reader.new tally.new) }
    ensures room { OnOk result (room_of reader.new + length piece.now ≤ room_of reader.old) }
    ensures fault { (text : List ℕ) → Heard right.now text [] reader.old tally.old
        → IfErr result (λ fault. IsFaultOf (text ++ piece.now) fault) }
    ensures early { IfErr result (λ fault. IsEarly fault) }
{
    let mut rest = piece;
    'lines: while !rest.is_empty() {
        let taken = hear_next(alloc, block, reader, tally, right, rest)?;
        rest = &rest[taken..];
    }
    Ok(())
}

/// The reason why the text wasn't read to its end.
#[derive(Clone, Copy)]
pub enum Stop {
    /// The text is no certificate, or memory ran out.
    Fault(CertFault),
    /// The source's device failed.
    Unread,
}

impl From<AllocError> for Stop {
    ghost use Rattle.cilk_checker.specs.declared.hearing.Stop.TheVariants as stops;
    ghost use Rattle.cilk_cert_text.specs.declared.fault.CertFault.TheVariants as cert_faults;

    ghost from_gives = { λ _ e. e ≡ stops.Fault cert_faults.Memory };

    fn from(_error: AllocError) -> Self {
        Stop::Fault(CertFault::Memory)
    }
}

// The bytes of a pull. Large, since each pull of a file is a read.
const PIECE: usize = 32_768;

// Reads the whole text of a source. Stops pulling once the text has a fault.
fn hear_all<S: Source>(
    alloc: Global,
    tally: &mut Tally,
    right: &Right,
    source: &mut S,
) -> Result<(), Stop>
    requires few { AreFew right.now }
    requires new { Tallied right.now nothing tally.old }
    requires counted { S.failed source.old < 18446744073709551615 }
    ensures heard { OnOk result (IsHeard right.now (S.remaining source.old) tally.new) }
    ensures stop { IfErr result (λ e. IsStop (S.remaining source.old) (S.failed source.old) (S.failed source.new) e) }
    ensures unfailed { IfErr result (λ e. IsUncounted (S.failed source.old) (S.failed source.new) (told e)) }
    ensures whole { OnOk result (TakesAll (S.remaining source.old) (S.remaining source.new)) }
    ensures part { IfErr result (λ e.
        TakesUntil (S.remaining source.old) (S.remaining source.new) (S.last source.new) (told e)) }
    ensures uncounted { OnOk result (S.failed source.new ≡ S.failed source.old) }
    ensures lender { S.lender source.new ≡ S.lender source.old }
    ensures kept { S.kept source.new ≡ S.kept source.old }
{
    let mut reader = LineReader::new();
    let mut block = Block::new();
    let mut buffer = [0u8; PIECE];
    'pieces: loop {
        match source.pull(&mut buffer) {
            Err(PullFault::Device) => return Err(Stop::Unread),
            Err(PullFault::Memory) => return Err(Stop::Fault(CertFault::Memory)),
            Ok(0) => {
                return match reader.end() {
                    Ok(()) => Ok(()),
                    Err(fault) => Err(Stop::Fault(fault)),
                };
            }
            Ok(count) => {
                let piece = &buffer[..count];
                if let Err(fault) = hear(alloc, &mut block, &mut reader, tally, right, piece) {
                    return Err(Stop::Fault(fault));
                }
            }
        }
    }
}

/// Reads the whole text of a source and compares it with the run.
pub fn heard<S: Source>(alloc: Global, right: &Right, source: &mut S) -> Result<Tally, Stop>
    requires few { AreFew right.now }
    requires counted { S.failed source.old < 18446744073709551615 }
    ensures heard { IfOk result (λ t. IsHeard right.now (S.remaining source.old) t) }
    ensures stop { IfErr result (λ e. IsStop (S.remaining source.old) (S.failed source.old) (S.failed source.new) e) }
    ensures unfailed { IfErr result (λ e. IsUncounted (S.failed source.old) (S.failed source.new) (told e)) }
    ensures whole { OnOk result (TakesAll (S.remaining source.old) (S.remaining source.new)) }
    ensures part { IfErr result (λ e.
        TakesUntil (S.remaining source.old) (S.remaining source.new) (S.last source.new) (told e)) }
    ensures uncounted { OnOk result (S.failed source.new ≡ S.failed source.old) }
    ensures lender { S.lender source.new ≡ S.lender source.old }
    ensures kept { S.kept source.new ≡ S.kept source.old }
{
    let mut tally = Tally::new(alloc, right)?;
    hear_all(alloc, &mut tally, right, source)?;
    Ok(tally)
}
