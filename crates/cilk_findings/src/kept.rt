//! Copies of what was read, and a program with its input among them.

ghost use Rattle.std.specs.Prelude.{◌≡◌, [], IfOk, IfSome, Some, option_map};
ghost use Rattle.cilk_findings.specs.Keeping.{AddsCopy, AreCopies, IsCopy, KeepsCopies, copies_in};

use crate::case::Case;
use crate::fault::CaseFault;
use cilk_messages::words::Origin;
use std::alloc::{AllocError, Global};

/// The number of bytes kept of a file that is read in parts: more than a certificate's first two
/// lines.
const FRONT: usize = 256;

/// Copies of what was read: each text that was read whole, in order, and the front of the file that
/// was read in parts; and whether explanations have colours.
#[derive(Drop)]
pub struct Kept {
    pub has_colors: bool,
    texts: Vec<Vec<u8>>,
    front: Vec<u8>,
    // Whether there was no memory for a copy.
    lacks: bool,
}

impl Kept {
    /// Begins without copies.
    pub fn new(alloc: Global, has_colors: bool) -> Kept
        ensures { copies_in result ≡ Some [] }
    {
        Kept {
            has_colors,
            texts: Vec::new(alloc),
            front: Vec::new(alloc),
            lacks: false,
        }
    }

    /// Forgets all copies.
    pub fn clear(&mut self)
        ensures { copies_in self.new ≡ Some [] }
    {
        self.texts.clear();
        self.front.clear();
        self.lacks = false;
    }

    /// Adds a copy of a text that was read whole.
    pub fn add(&mut self, alloc: Global, text: &[u8])
        ensures { AddsCopy self.old self.new text.now }
    {
        if self.copy(alloc, text).is_err() {
            self.lacks = true;
        }
    }

    fn copy(&mut self, alloc: Global, text: &[u8]) -> Result<(), AllocError>
        ensures { IfOk result (λ _. AddsCopy self.old self.new text.now) }
    {
        self.texts.push(text.to_vec(alloc)?)?;
        Ok(())
    }

    /// Keeps what belongs to the front of a part that begins at byte `at`.
    pub fn add_part(&mut self, at: u64, part: &[u8])
        ensures { KeepsCopies self.old self.new }
    {
        let length = self.front.len();
        if at != length as u64 {
            return;
        }
        let room = FRONT.saturating_sub(length).min(part.len());
        if self.front.extend_from_slice(&part[..room]).is_err() {
            self.lacks = true;
        }
    }

    /// Returns the number of texts that were read whole.
    pub fn count(&self) -> usize {
        self.texts.len()
    }

    /// Returns a text by the order of reading, from 0. Fails if it wasn't read, or if there was no
    /// memory for a copy.
    pub fn text(&self, number: usize) -> Result<&[u8], CaseFault>
        ensures { IfOk result (λ text. IsCopy self.now number text.now) }
    {
        match self.texts.get(number) {
            _ if self.lacks => Err(CaseFault::Memory),
            Some(text) => Ok(text.as_slice()),
            None => Err(CaseFault::Unfit),
        }
    }

    /// Returns the text that was read last.
    pub fn last(&self) -> Result<&[u8], CaseFault> {
        self.text(self.count().saturating_sub(1))
    }

    /// Returns the front of the file that was read in parts, or of the text that was read last where none
    /// was: a certificate. Fails if there was no memory for a copy.
    pub fn front(&self) -> Result<&[u8], CaseFault> {
        match self.front.as_slice() {
            [] => {
                let text = self.last()?;
                Ok(&text[..text.len().min(FRONT)])
            }
            _ if self.lacks => Err(CaseFault::Memory),
            front => Ok(front),
        }
    }
}

/// A program's path, its text, and the text of its input.
#[derive(Clone, Copy)]
pub struct CaseTexts<'a> {
    pub file: &'a str,
    pub program: &'a [u8],
    pub input: &'a [u8],
}

impl<'a> CaseTexts<'a> {
    /// Returns the texts of a program and its input, which have to be read first. `None` if the
    /// program came from standard input.
    pub fn of(
        program: Origin<'a>,
        input: Option<&str>,
        kept: &'a Kept,
    ) -> Result<Option<CaseTexts<'a>>, CaseFault>
        ensures { IfOk result (λ texts. IfSome texts (λ t. AreCopies kept.entry.now (option_map (λ p. p.now) input.entry) t.program.now t.input.now)) }
    {
        let Origin::File(file) = program else {
            return Ok(None);
        };
        let program = kept.text(0)?;
        let input = match input {
            Some(_) => kept.text(1)?,
            None => &[],
        };
        Ok(Some(CaseTexts {
            file,
            program,
            input,
        }))
    }

    /// Reads these texts as a case.
    pub fn case(&self, alloc: Global) -> Result<Case<'a>, CaseFault> {
        Case::of(alloc, self.file, self.program, self.input)
    }
}
