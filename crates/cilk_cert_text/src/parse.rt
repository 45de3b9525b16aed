// Parsing a line of a known form.

ghost use Rattle.std.specs.Prelude.{◌≡◌, IfSome, IsTrue, option_map, take, drop};
ghost use Rattle.cilk_cert_text.specs.declared.line.Keyword.TheVariants as keywords;
ghost use Rattle.cilk_cert_text.specs.declared.line.Version.TheVariants as versions;
ghost use Rattle.cilk_cert_text.specs.Lines.{all_keywords, first_spelled, keyword_of, reducer_at, reducer_value_at, entry_at, event_line, version_of, version_line, is_size, size_line, frame_line, strand_line, result_line, end_line, line_of};
ghost use Rattle.cilk_cert_text.specs.Words.{words};
ghost use Rattle.cilk_cert_text.specs.Parsing.{words_in};

use crate::line::{Entry, Form, Frame, Keyword, Line, Reducer, Size, Strand, Version};
use crate::word::{self, after, alone, first, number, value};
use cilk_types::event::{FrameNo, Instance, StrandNo};
use cilk_types::limits::{MAX_EVENTS, MAX_FRAMES};

/// Returns the keyword with this spelling, if it is one of the first seven.
#[inline(always)]
fn first_keyword(word: &[u8]) -> Option<Keyword>
    ensures { result ≡ first_spelled (take 7 all_keywords) word.now }
{
    if word == b"begin".as_slice() {
        return Some(Keyword::Begin);
    }
    if word == b"spawn".as_slice() {
        return Some(Keyword::Spawn);
    }
    if word == b"call".as_slice() {
        return Some(Keyword::Call);
    }
    if word == b"resume".as_slice() {
        return Some(Keyword::Resume);
    }
    if word == b"sync".as_slice() {
        return Some(Keyword::Sync);
    }
    if word == b"end".as_slice() {
        return Some(Keyword::End);
    }
    if word == b"read".as_slice() {
        return Some(Keyword::Read);
    }
    None
}

/// Returns the keyword with this spelling, if it is one of the others.
#[inline(always)]
fn later_keyword(word: &[u8]) -> Option<Keyword>
    ensures { result ≡ first_spelled (drop 7 all_keywords) word.now }
{
    if word == b"write".as_slice() {
        return Some(Keyword::Write);
    }
    if word == b"create".as_slice() {
        return Some(Keyword::Create);
    }
    if word == b"update".as_slice() {
        return Some(Keyword::Update);
    }
    if word == b"set".as_slice() {
        return Some(Keyword::Set);
    }
    if word == b"value".as_slice() {
        return Some(Keyword::Value);
    }
    if word == b"print".as_slice() {
        return Some(Keyword::Print);
    }
    None
}

/// Returns the keyword with this spelling.
fn keyword(word: &[u8]) -> Option<Keyword>
    ensures { result ≡ keyword_of word.now }
{
    if let Some(keyword) = first_keyword(word) {
        return Some(keyword);
    }
    later_keyword(word)
}

/// Parses a reducer's name, in the form of the version.
#[tactic(auto, unfolding(crate::specs::Lines::reducer_at))]
fn reducer<'a>(version: Version, left: Option<&'a [u8]>) -> Option<(Reducer, Option<&'a [u8]>)>
    ensures { option_map (λ r. (r.0, words_in r.1)) result ≡ reducer_at version (words_in left.entry) }
{
    match version {
        Version::One => {
            let (number, rest) = number(left)?;
            Some((Reducer::Number(number), rest))
        }
        Version::Two => {
            let (frame, rest) = number(left)?;
            let (place, rest) = number(rest)?;
            Some((Reducer::Place(Instance { frame, place }), rest))
        }
    }
}

/// Parses a reducer's name and a value.
#[tactic(auto, unfolding(crate::specs::Lines::reducer_value_at))]
fn reducer_value<'a>(
    version: Version,
    left: Option<&'a [u8]>,
) -> Option<((Reducer, i64), Option<&'a [u8]>)>
    ensures { option_map (λ r. (r.0, words_in r.1)) result ≡ reducer_value_at version (words_in left.entry) }
{
    let (reducer, rest) = reducer(version, left)?;
    let (value, rest) = value(rest)?;
    Some(((reducer, value), rest))
}

/// Parses a read's cell, value and source, which have one form in both versions.
#[tactic(auto, unfolding(crate::specs::Lines::entry_at))]
fn read<'a>(left: Option<&'a [u8]>) -> Option<(Entry, Option<&'a [u8]>)>
    ensures { option_map (λ r. (r.0, words_in r.1)) result ≡ entry_at versions.One keywords.Read (words_in left.entry) }
{
    let (cell, rest) = number(left)?;
    let (value, rest) = value(rest)?;
    let (source, rest) = number(rest)?;
    let read = Entry::Read {
        cell,
        value,
        source,
    };
    Some((read, rest))
}

/// Parses the rest of an event's line after its keyword.
#[tactic(auto, unfolding(crate::specs::Lines::entry_at))]
fn entry<'a>(
    version: Version,
    keyword: Keyword,
    left: Option<&'a [u8]>,
) -> Option<(Entry, Option<&'a [u8]>)>
    ensures { option_map (λ r. (r.0, words_in r.1)) result ≡ entry_at version keyword (words_in left.entry) }
{
    match keyword {
        Keyword::Begin => {
            let (frame, rest) = number(left)?;
            Some((Entry::Begin { frame }, rest))
        }
        Keyword::Spawn => {
            let (child, rest) = number(left)?;
            Some((Entry::Spawn { child }, rest))
        }
        Keyword::Call => {
            let (child, rest) = number(left)?;
            Some((Entry::Call { child }, rest))
        }
        Keyword::Resume => {
            let (parent, rest) = number(left)?;
            Some((Entry::Resume { parent }, rest))
        }
        Keyword::Sync => Some((Entry::Sync, left)),
        Keyword::End => Some((Entry::End, left)),
        Keyword::Read => read(left),
        Keyword::Write => {
            let (cell, rest) = number(left)?;
            let (value, rest) = value(rest)?;
            Some((Entry::Write { cell, value }, rest))
        }
        Keyword::Create => {
            let (reducer, rest) = reducer(version, left)?;
            Some((Entry::Create { reducer }, rest))
        }
        Keyword::Update => {
            let ((reducer, value), rest) = reducer_value(version, left)?;
            Some((Entry::Update { reducer, value }, rest))
        }
        Keyword::Set => {
            let ((reducer, value), rest) = reducer_value(version, left)?;
            Some((Entry::Set { reducer, value }, rest))
        }
        Keyword::Value => {
            let ((reducer, value), rest) = reducer_value(version, left)?;
            Some((Entry::Value { reducer, value }, rest))
        }
        Keyword::Print => {
            let (value, rest) = value(left)?;
            Some((Entry::Print { value }, rest))
        }
    }
}

#[tactic(auto, unfolding(crate::specs::Lines::event_line))]
fn event(version: Version, left: Option<&[u8]>) -> Option<Line>
    ensures { result ≡ event_line version (words_in left.entry) }
{
    let (word, rest) = first(left)?;
    let keyword = keyword(word)?;
    let (entry, rest) = entry(version, keyword, rest)?;
    alone(Line::Event(entry), rest)
}

fn version_of(word: &[u8]) -> Option<Version>
    ensures { result ≡ version_of word.now }
{
    if word == b"1".as_slice() {
        return Some(Version::One);
    }
    if word == b"2".as_slice() {
        return Some(Version::Two);
    }
    None
}

/// Parses the version line.
#[tactic(auto, unfolding(crate::specs::Lines::version_line))]
pub(crate) fn version(bytes: &[u8]) -> Option<Version>
    ensures { result ≡ version_line (words bytes.now) }
{
    let rest = after(b"cilkcert", Some(bytes))?;
    let (word, rest) = first(rest)?;
    let version = version_of(word)?;
    alone(version, rest)
}

/// Tells whether the sizes are within the limits of the format.
fn is_size(size: Size) -> bool
    ensures { result ≡ is_size size }
{
    size.events <= MAX_EVENTS && size.frames <= MAX_FRAMES && size.strands <= MAX_EVENTS
}

/// Parses the size line, if it is within the limits of the format.
#[tactic(auto, unfolding(crate::specs::Lines::size_line))]
pub(crate) fn size(bytes: &[u8]) -> Option<Size>
    ensures line { result ≡ size_line (words bytes.now) }
    ensures limits { IfSome result (λ size. IsTrue (is_size size)) }
{
    let rest = after(b"size", Some(bytes))?;
    let (events, rest) = number(rest)?;
    let (frames, rest) = number(rest)?;
    let (strands, rest) = number(rest)?;
    let size = Size {
        events,
        frames,
        strands,
    };
    let size = alone(size, rest)?;
    if is_size(size) { Some(size) } else { None }
}

#[tactic(auto, unfolding(crate::specs::Lines::frame_line))]
fn frame(due: FrameNo, left: Option<&[u8]>) -> Option<Line>
    ensures { result ≡ frame_line due (words_in left.entry) }
{
    let rest = after(b"frame", left)?;
    let (number, rest) = word::number(rest)?;
    let (parent, rest) = word::number(rest)?;
    let (ordinal, rest) = word::number(rest)?;
    if number != due {
        return None;
    }
    let frame = Frame { parent, ordinal };
    alone(Line::Frame { number, frame }, rest)
}

#[tactic(auto, unfolding(crate::specs::Lines::strand_line))]
fn strand(due: StrandNo, left: Option<&[u8]>) -> Option<Line>
    ensures { result ≡ strand_line due (words_in left.entry) }
{
    let rest = after(b"strand", left)?;
    let (number, rest) = word::number(rest)?;
    let (frame, rest) = word::number(rest)?;
    let (hebrew, rest) = word::number(rest)?;
    let (class, rest) = word::number(rest)?;
    if number != due {
        return None;
    }
    let strand = Strand {
        frame,
        hebrew,
        class,
    };
    alone(Line::Strand { number, strand }, rest)
}

#[tactic(auto, unfolding(crate::specs::Lines::result_line))]
fn result_value(left: Option<&[u8]>) -> Option<Line>
    ensures { result ≡ result_line (words_in left.entry) }
{
    let rest = after(b"result", left)?;
    let (value, rest) = value(rest)?;
    alone(Line::Result(value), rest)
}

#[tactic(auto, unfolding(crate::specs::Lines::end_line))]
fn end(left: Option<&[u8]>) -> Option<Line>
    ensures { result ≡ end_line (words_in left.entry) }
{
    let rest = after(b"end", left)?;
    alone(Line::End, rest)
}

/// Parses a line of this form.
#[tactic(auto, unfolding(crate::specs::Lines::line_of))]
pub(crate) fn line(form: Form, bytes: &[u8]) -> Option<Line>
    ensures { result ≡ line_of form bytes.now }
{
    let left = Some(bytes);
    match form {
        Form::Frame(number) => frame(number, left),
        Form::Strand(number) => strand(number, left),
        Form::Event(version) => event(version, left),
        Form::Result => result_value(left),
        Form::End => end(left),
    }
}
