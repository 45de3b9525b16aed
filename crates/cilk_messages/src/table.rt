//! Tables of sites: what the numbers of a trace's sites mean.

ghost use Rattle.std.specs.Prelude.{◌≤◌, length};

use crate::asked::number_of;
use std::alloc::{AllocError, Global};

/// The most bytes of a line that are kept.
const MAX_LINE: usize = 4096;

/// What the table says of a site: file and line of the source, and the function.
#[derive(Drop)]
struct Site {
    number: u32,
    place: String,
    function: String,
}

/// A search for sites in a table.
pub struct Sites {
    alloc: Global,
    wanted: [u32; 3],
    found: Vec<Site>,
    line: Vec<u8>,
}

// Written out, so that a proof follows one call where a search is dropped.
impl Drop for Sites {
    fn drop(self) {
        let Sites {
            alloc: _alloc,
            wanted: _wanted,
            found: _found,
            line: _line,
        } = self;
    }
}

impl Sites {
    /// Begins a search for sites of these numbers.
    pub fn new(alloc: Global, wanted: [u32; 3]) -> Sites {
        Sites {
            alloc,
            wanted,
            found: Vec::new(alloc),
            line: Vec::new(alloc),
        }
    }

    /// Returns whether no site was found.
    pub fn is_empty(&self) -> bool {
        self.found.is_empty()
    }

    /// Returns `FILE:LINE` and the function of a site, if the table names them.
    pub fn of(&self, number: u32) -> Option<(&str, &str)> {
        for site in &self.found {
            if site.number == number {
                return Some((site.place.as_str(), site.function.as_str()));
            }
        }
        None
    }

    /// Takes the next bytes of the table.
    pub fn read(&mut self, part: &[u8]) -> Result<(), AllocError> {
        for byte in part {
            if *byte == b'\n' {
                self.end_line()?;
                self.line.truncate(0);
            } else if self.line.len() < MAX_LINE {
                self.line.push(*byte)?;
            }
        }
        Ok(())
    }

    // Reads a line, unless it is of a site that isn't wanted or isn't known.
    fn end_line(&mut self) -> Result<(), AllocError> {
        let line = self.line.as_slice();
        let (digits, behind) = line.split_at(end_of_number(line));
        let (Some(number), [_, rest @ ..]) = (number_of(digits), behind) else {
            return Ok(());
        };
        if number <= 4_294_967_295 {
            let number = number as u32;
            if self.wanted.contains(&number) && !rest.starts_with(b"?:0 ") {
                self.found.push(site_of(self.alloc, number, rest)?)?;
            }
        }
        Ok(())
    }
}

// The end of the number at the beginning of a line: the first space.
fn end_of_number(line: &[u8]) -> usize
    ensures { result ≤ length line.now }
{
    for at in 0..line.len() {
        if line[at] == b' ' {
            return at;
        }
    }
    line.len()
}

// The site of a number, by the rest of its line.
fn site_of(alloc: Global, number: u32, rest: &[u8]) -> Result<Site, AllocError> {
    let (place, behind) = rest.split_at(end_of_place(rest));
    let function = behind.get(1..).unwrap_or(&[]);
    Ok(Site {
        number,
        place: String::from_utf8_lossy(alloc, place)?,
        function: String::from_utf8_lossy(alloc, function)?,
    })
}

// The end of `FILE:LINE`: the first space after a colon and digits, since a file's name may have
// spaces.
fn end_of_place(rest: &[u8]) -> usize
    ensures { result ≤ length rest.now }
{
    let mut has_colon = false;
    let mut has_digits = false;
    for at in 0..rest.len() {
        match rest[at] {
            b' ' if has_colon && has_digits => return at,
            b':' => {
                has_colon = true;
                has_digits = false;
            }
            b'0'..=b'9' => has_digits = true,
            _ => has_colon = false,
        }
    }
    rest.len()
}
