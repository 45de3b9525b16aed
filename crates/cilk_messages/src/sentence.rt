//! Sentences with gaps, and the parts that fill them.
//!
//! A sentence owns nothing, so a hint is made without memory, and only what shows it can fail.

use crate::place::Location;
use std::alloc::{AllocError, Global};

/// A part of a sentence.
#[derive(Clone, Copy)]
pub enum Part<'a> {
    Text(&'a str),
    /// Bytes of a program's text.
    Word(&'a [u8]),
    Count(usize),
    Number(i64),
    /// The plural ending of a counted word: none for 1.
    Plural(usize),
    /// `FILE:LINE:COLUMN`.
    Place(&'a str, Location),
}

// The most gaps of a sentence.
const GAPS: usize = 6;

/// A sentence, in which `{}` stands for each part.
#[derive(Clone, Copy)]
pub struct Sentence<'a> {
    words: &'a str,
    parts: [Part<'a>; GAPS],
    count: usize,
}

/// A sentence of these words, whose gaps are empty so far.
pub fn say(words: &str) -> Sentence<'_> {
    Sentence {
        words,
        parts: [Part::Text(""); GAPS],
        count: 0,
    }
}

impl<'a> Sentence<'a> {
    /// Returns its words, with the gaps.
    pub fn words(&self) -> &'a str {
        self.words
    }

    /// Fills the next gap.
    pub fn with(self, part: Part<'a>) -> Sentence<'a> {
        let mut filled = self;
        if let Some(gap) = filled.parts.get_mut(self.count) {
            *gap = part;
        }
        filled.count = self.count.saturating_add(1);
        filled
    }

    /// Fills the next gap with words.
    pub fn text(self, words: &'a str) -> Sentence<'a> {
        self.with(Part::Text(words))
    }

    /// Fills the next gap with a word of a program's text.
    pub fn word(self, word: &'a [u8]) -> Sentence<'a> {
        self.with(Part::Word(word))
    }

    /// Fills the next gap with a number.
    pub fn count(self, count: usize) -> Sentence<'a> {
        self.with(Part::Count(count))
    }

    /// Fills the next two gaps with a count and the plural ending of what it counts.
    pub fn counted(self, count: usize) -> Sentence<'a> {
        self.with(Part::Count(count)).with(Part::Plural(count))
    }

    /// Adds the sentence to a text.
    pub fn push(&self, alloc: Global, text: &mut String) -> Result<(), AllocError> {
        push_said(alloc, text, self.words, &self.parts)
    }
}

/// Adds words to a text, in which `{}` stands for each part.
pub fn push_said(
    alloc: Global,
    text: &mut String,
    words: &str,
    parts: &[Part<'_>],
) -> Result<(), AllocError> {
    let mut rest = words;
    for number in 0..parts.len() {
        let Some((ahead, behind)) = rest.split_once("{}") else {
            break;
        };
        text.push_str(ahead)?;
        push_part(alloc, text, parts[number])?;
        rest = behind;
    }
    text.push_str(rest)
}

fn push_part(alloc: Global, text: &mut String, part: Part<'_>) -> Result<(), AllocError> {
    match part {
        Part::Text(words) => text.push_str(words),
        Part::Word(word) => text.push_str(printed(alloc, word)?.as_str()),
        Part::Count(count) => write!(text, "{count}"),
        Part::Number(number) => write!(text, "{number}"),
        Part::Plural(1) => Ok(()),
        Part::Plural(_) => text.push('s'),
        Part::Place(file, Location { line, column }) => write!(text, "{file}:{line}:{column}"),
    }
}

/// Returns bytes of a text as they are shown: a control character as `\x1b`, but a tab as it is, and
/// the end of a line as a blank.
pub fn printed(alloc: Global, bytes: &[u8]) -> Result<String, AllocError> {
    let text = String::from_utf8_lossy(alloc, bytes)?;
    let mut shown = String::new(alloc);
    for symbol in text.as_str().chars() {
        push_symbol(&mut shown, symbol)?;
    }
    Ok(shown)
}

fn push_symbol(text: &mut String, symbol: char) -> Result<(), AllocError> {
    if symbol == '\t' || !symbol.is_control() {
        text.push(symbol)
    } else if symbol.is_whitespace() {
        text.push(' ')
    } else {
        let code = symbol as u32;
        write!(text, "\\x{code:02x}")
    }
}

/// Adds a line `WHAT: SENTENCE`, but nothing for a sentence without words.
pub fn push_line(
    alloc: Global,
    text: &mut String,
    what: &str,
    sentence: &Sentence<'_>,
) -> Result<(), AllocError> {
    if sentence.words.is_empty() {
        return Ok(());
    }
    write!(text, "{what}: ")?;
    sentence.push(alloc, text)?;
    text.push('\n')
}
