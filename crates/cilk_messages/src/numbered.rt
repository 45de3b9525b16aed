//! A line of a file, by its number.

use std::alloc::{AllocError, Global};

/// The most bytes of a line that are shown.
const SHOWN: usize = 80;

/// A search for a line of a file.
#[derive(Drop)]
pub struct LineAt {
    // The ends of lines that come before it.
    ahead: u32,
    bytes: Vec<u8>,
}

impl LineAt {
    /// Begins a search for the line of a number, counted from 1.
    pub fn new(alloc: Global, number: u32) -> LineAt {
        LineAt {
            ahead: number.saturating_sub(1),
            bytes: Vec::new(alloc),
        }
    }

    /// Returns the beginning of the line, with `?` for each byte that isn't printed.
    pub fn text(&self, alloc: Global) -> Result<String, AllocError> {
        String::from_utf8_lossy(alloc, self.bytes.as_slice())
    }

    /// Returns whether the beginning of the line is this.
    pub fn is(&self, words: &str) -> bool {
        self.bytes.as_slice() == words.as_bytes()
    }

    /// Takes the file's next bytes, and returns whether more are wanted.
    pub fn read(&mut self, part: &[u8]) -> Result<bool, AllocError> {
        for byte in part {
            if *byte == b'\n' {
                if self.ahead == 0 {
                    return Ok(false);
                }
                self.ahead = self.ahead.saturating_sub(1);
            } else if self.ahead == 0 {
                if self.bytes.len() == SHOWN {
                    return Ok(false);
                }
                let is_shown = byte.is_ascii_graphic() || *byte == b' ';
                self.bytes.push(if is_shown { *byte } else { b'?' })?;
            }
        }
        Ok(true)
    }
}
