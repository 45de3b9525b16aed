//! The two accesses of a trace that race, and the spawned call that lets them run in parallel.

use crate::again::Seeks;
use cilk_findings::fault::CaseFault;
use cilk_messages::raced::{Access, CallLines};
use cilk_messages::sentence::{Part, push_said};
use cilk_trace::line::{Cells, Line};
use cilk_trace::reader::TraceReader;
use std::alloc::{AllocError, Global};

/// The most numbers of a frame's path that are shown.
const SHOWN: usize = 16;

/// A line of a trace: its number and site, its deed in words that `here` follows, and the path of
/// the frame that it is in.
#[derive(Drop)]
pub struct Found {
    number: u32,
    pub site: u32,
    deed: String,
    frame: String,
}

impl Found {
    /// Returns the access in words.
    pub fn access(&self) -> Access<'_> {
        Access {
            number: self.number,
            site: self.site,
            frame: self.frame.as_str(),
            deed: self.deed.as_str(),
        }
    }
}

/// A frame that is open: its number among its parent's children, and the number of its own.
#[derive(Clone, Copy)]
struct Open {
    site: u32,
    first: u32,
    ordinal: u64,
    children: u64,
}

/// A search for two lines of a trace. Its memory is linear in the depth of frames.
pub struct Accesses {
    alloc: Global,
    earlier: u32,
    later: u32,
    reader: TraceReader,
    open: Vec<Open>,
    // The children of the root frame.
    children: u64,
    // The fewest frames that were open since the earlier line.
    fewest: usize,
    /// The earlier line, once it is found.
    pub first: Option<Found>,
    /// The later line, once it is found.
    pub second: Option<Found>,
    /// The last call on the way from the earlier line to the later one that ended: it is the child
    /// in which the earlier line is, of the last frame on both ways.
    pub parted: Option<CallLines>,
}

// Written out, so that a proof follows one call where a search is dropped.
impl Drop for Accesses {
    fn drop(self) {
        let Accesses {
            alloc: _alloc,
            earlier: _earlier,
            later: _later,
            reader: _reader,
            open: _open,
            children: _children,
            fewest: _fewest,
            first: _first,
            second: _second,
            parted: _parted,
        } = self;
    }
}

impl Accesses {
    /// Begins a search for two lines, counted from 1.
    pub fn new(alloc: Global, earlier: u32, later: u32) -> Accesses {
        Accesses {
            alloc,
            earlier,
            later,
            reader: TraceReader::new(alloc),
            open: Vec::new(alloc),
            children: 0,
            fewest: 0,
            first: None,
            second: None,
            parted: None,
        }
    }

    fn meet(&mut self, number: u32, line: Line) -> Result<(), AllocError> {
        match line {
            Line::Enter { site } => self.enter(number, site)?,
            Line::Spawned | Line::Called => self.leave(number),
            _ if number == self.earlier => {
                self.fewest = self.open.len();
                self.first = Some(self.found(number, line)?);
            }
            _ if number == self.later => self.second = Some(self.found(number, line)?),
            _ => {}
        }
        Ok(())
    }

    fn enter(&mut self, first: u32, site: u32) -> Result<(), AllocError> {
        let ordinal = match self.open.last_mut() {
            Some(parent) => next(&mut parent.children),
            None => next(&mut self.children),
        };
        self.open.push(Open {
            site,
            first,
            ordinal,
            children: 0,
        })?;
        Ok(())
    }

    fn leave(&mut self, last: u32) {
        let Some(Open { site, first, .. }) = self.open.pop() else {
            return;
        };
        if self.first.is_some() && self.open.len() < self.fewest {
            self.fewest = self.open.len();
            self.parted = Some(CallLines { site, first, last });
        }
    }

    fn found(&self, number: u32, line: Line) -> Result<Found, AllocError> {
        let mut found = Found {
            number,
            site: 0,
            deed: String::new(self.alloc),
            frame: String::new(self.alloc),
        };
        self.fill(&mut found, line)?;
        Ok(found)
    }

    // Fills in the site of a line, its deed, and the path of the current frame: `r`, and the number
    // of each frame on the way among its parent's children.
    fn fill(&self, found: &mut Found, line: Line) -> Result<(), AllocError> {
        let (words, one, other, site) = deed_of(line);
        found.site = site;
        let parts = [Part::Count(one as usize), Part::Count(other as usize)];
        push_said(self.alloc, &mut found.deed, words, &parts)?;
        found.frame.push('r')?;
        for depth in 0..self.open.len() {
            if depth == SHOWN {
                return found.frame.push_str("..");
            }
            let ordinal = self.open[depth].ordinal;
            write!(found.frame, ".{ordinal}")?;
        }
        Ok(())
    }
}

// The deed of a line in words with gaps for two numbers, these numbers, and its site; 0 for one
// without a site.
fn deed_of(line: Line) -> (&'static str, u32, u32, u32) {
    match line {
        Line::Read { cells, site } => match cells.count {
            1 => ("cell {} is read", cells.first, 0, site),
            _ => ("cells {} to {} are read", cells.first, last_of(cells), site),
        },
        Line::Write { cells, site } => match cells.count {
            1 => ("cell {} is written", cells.first, 0, site),
            _ => (
                "cells {} to {} are written",
                cells.first,
                last_of(cells),
                site,
            ),
        },
        Line::Create { reducer, site } => ("reducer {} is created", reducer, 0, site),
        Line::Value { reducer, site } => {
            ("the view of reducer {} is read or set", reducer, 0, site)
        }
        Line::Enter { site }
        | Line::Update { site, .. }
        | Line::Retire { site, .. }
        | Line::Unseen { site } => ("something is done", 0, 0, site),
        Line::Spawned | Line::Called | Line::Sync | Line::Clear { .. } | Line::End => {
            ("something is done", 0, 0, 0)
        }
    }
}

fn last_of(cells: Cells) -> u32 {
    cells.first.saturating_add(cells.count.saturating_sub(1))
}

// Counts one more, and returns the count.
fn next(count: &mut u64) -> u64 {
    *count = count.saturating_add(1);
    *count
}

impl Seeks for Accesses {
    fn take(&mut self, part: &[u8]) -> Result<bool, CaseFault> {
        let mut rest = part;
        for _line in 0..part.len() {
            if rest.is_empty() || self.second.is_some() {
                break;
            }
            let number = self.reader.number();
            self.reader.reserve()?;
            match self.reader.next(rest) {
                Ok((taken, line)) => {
                    rest = &rest[taken..];
                    if let Some(line) = line {
                        self.meet(number, line)?;
                    }
                }
                Err(_) => return Err(CaseFault::Unfit),
            }
        }
        Ok(self.second.is_none())
    }
}
