//! What the critical path of a run goes through: spawns and lines of the text.

use crate::chains::{Chain, Chains};
use crate::rows::{Table, push_cells, title_at};
use crate::shares::{NO_SHARE, Share};
use cilk_findings::case::Case;
use cilk_findings::scene::Scene;
use cilk_messages::sentence::{printed, say};
use cilk_program::program::Body;
use cilk_types::invocation::Invocation;
use std::alloc::AllocError;

/// The most lines that are shown.
const LINES: usize = 5;

/// The most bytes of a line that are shown.
const SHOWN: usize = 60;

/// A place at which frames are spawned, or a `cilk_for`: what it runs, the number of spawns, the
/// measures of its frames, and the events of the critical path inside them.
#[derive(Clone, Copy)]
struct Site {
    body: Body,
    spawned: u64,
    share: Share,
    on_path: u64,
}

/// A line: its number, its bytes, and the events of the critical path there.
#[derive(Clone, Copy)]
struct Line {
    number: usize,
    first: usize,
    end: usize,
    on_path: u64,
}

// The heads of the first columns, for a spreadsheet without what is in brackets.
const SITE: &str = "spawned (shares of nested ones overlap)";

const SITE_ALONE: &str = "spawned";

const LINE: &str = "line";

/// The critical path of a run: the number of its events, and what it goes through.
struct Critical<'a> {
    table: Table<'a>,
    length: u64,
    chains: Chains,
    // For each event, and the end, the number of events of the path that come before it.
    ahead: Vec<u32>,
    // For each byte of the text, the events of the path there.
    counts: Vec<u64>,
    // By the byte of the text.
    sites: Vec<Option<Site>>,
}

// Written out, so that a proof follows one call where it is dropped.
impl Drop for Critical<'_> {
    fn drop(self) {
        let Critical {
            table: _table,
            length: _length,
            chains: _chains,
            ahead: _ahead,
            counts: _counts,
            sites: _sites,
        } = self;
    }
}

impl Table<'_> {
    /// Adds a table of the places of spawns, and one of the lines with most of the critical path.
    pub fn push_critical(&self, text: &mut String) -> Result<(), AllocError> {
        let alloc = self.scene.case.alloc;
        let mut critical = Critical {
            table: *self,
            length: 0,
            chains: Chains::of(alloc, &self.scene.run.trace)?,
            ahead: Vec::new(alloc),
            counts: Vec::new(alloc),
            sites: Vec::new(alloc),
        };
        critical.push(text)
    }

    // Adds a count, and how much that is of another, in percent with a digit after the point.
    fn push_percent(&self, text: &mut String, count: u64, total: u64) -> Result<(), AllocError> {
        let thousandths = count.saturating_mul(1000).checked_div(total).unwrap_or(0);
        let whole = thousandths / 10;
        let tenths = thousandths % 10;
        if self.commas {
            write!(text, ",{count},{whole}.{tenths}")
        } else {
            write!(text, " {count:>9} {whole:>6}.{tenths}%")
        }
    }
}

impl Critical<'_> {
    fn push(&mut self, text: &mut String) -> Result<(), AllocError> {
        self.find_path()?;
        self.find_sites()?;
        self.push_sites(text)?;
        self.push_lines(text)
    }

    // Counts the events of the path: those before each event, and those at each byte.
    fn find_path(&mut self) -> Result<(), AllocError> {
        let Scene { case, run } = self.table.scene;
        self.counts.resize(case.text.len(), 0)?;
        self.ahead
            .resize(run.replay.steps.len().saturating_add(1), 0)?;
        let Chain { length, last } = self.chains.depth.own;
        self.length = length as u64;
        let mut event = last;
        for _event in 0..length {
            if let Some(step) = run.replay.steps.get(event)
                && let Some(count) = self.counts.get_mut(step.at)
            {
                *count = count.saturating_add(1);
            }
            // Its place among the numbers, which are added up below, is the one of the next event.
            if let Some(mark) = self.ahead.get_mut(event.saturating_add(1)) {
                *mark = 1;
            }
            event = self.chains.before.get(event).copied().unwrap_or(0) as usize;
        }
        let mut sum: u32 = 0;
        for place in 0..self.ahead.len() {
            if let Some(count) = self.ahead.get_mut(place) {
                sum = sum.saturating_add(*count);
                *count = sum;
            }
        }
        Ok(())
    }

    // Finds each byte at which a frame is spawned, or at which there is the `cilk_for` that it runs
    // turns of. A frame inside another one of the same place adds no events.
    fn find_sites(&mut self) -> Result<(), AllocError> {
        let scene = self.table.scene;
        self.sites.resize(scene.case.text.len(), None)?;
        for note in &scene.run.replay.frames {
            let at = match (note.body, note.how) {
                (Body::Loop(_), _) => scene.named_at(note.body),
                (Body::Function(_), Invocation::Spawn) => note.invoked_at,
                (Body::Function(_), Invocation::Call) => usize::MAX,
            };
            if let Some(place) = self.sites.get_mut(at) {
                let mut site = place.unwrap_or(Site {
                    body: note.body,
                    spawned: 0,
                    share: NO_SHARE,
                    on_path: 0,
                });
                if let Invocation::Spawn = note.how {
                    site.spawned = site.spawned.saturating_add(1);
                }
                let counted = site.share.upto;
                site.share.add(note, self.chains.steps.as_slice());
                let upto = site.share.upto;
                if upto > counted {
                    let ahead = ahead_of(self.ahead.as_slice(), note.begun.saturating_add(1));
                    let inside = ahead_of(self.ahead.as_slice(), upto).saturating_sub(ahead);
                    site.on_path = site.on_path.saturating_add(u64::from(inside));
                }
                *place = Some(site);
            }
        }
        Ok(())
    }

    // Adds a line for each place, in the order of the text, if there is one.
    fn push_sites(&self, text: &mut String) -> Result<(), AllocError> {
        let Table { scene, commas } = self.table;
        let mut width: usize = 0;
        let mut at: usize = 0;
        for site in &self.sites {
            if let Some(site) = site {
                let title = title_at(&scene, site.body, at);
                width = width.max(self.table.length_of(&title)?);
            }
            at = at.saturating_add(1);
        }
        if width == 0 {
            return Ok(());
        }
        let head = if commas { SITE_ALONE } else { SITE };
        width = width.max(head.len());
        text.push('\n')?;
        push_cells(
            text,
            head,
            &["spawns", "span", "on span", "share"],
            width,
            commas,
        )?;
        at = 0;
        for site in &self.sites {
            if let Some(site) = site {
                let title = title_at(&scene, site.body, at);
                self.table
                    .push_title(text, &title, width, &[site.spawned, site.share.span])?;
                self.table.push_percent(text, site.on_path, self.length)?;
                text.push('\n')?;
            }
            at = at.saturating_add(1);
        }
        Ok(())
    }

    // Adds the lines with most of the path.
    fn push_lines(&mut self, text: &mut String) -> Result<(), AllocError> {
        let table = self.table;
        text.push('\n')?;
        push_cells(text, LINE, &["on span", "share"], LINE.len(), table.commas)?;
        for _line in 0..LINES {
            let line = self.greatest();
            if line.on_path == 0 {
                break;
            }
            for place in line.first..line.end.saturating_add(1) {
                if let Some(count) = self.counts.get_mut(place) {
                    *count = 0;
                }
            }
            table.push_title(text, &say("{}").count(line.number), LINE.len(), &[])?;
            table.push_percent(text, line.on_path, self.length)?;
            if !table.commas {
                push_words(text, table.scene.case, &line)?;
            }
            text.push('\n')?;
        }
        Ok(())
    }

    // The line with the most events that are left, the first of several.
    fn greatest(&self) -> Line {
        let text = self.table.scene.case.text;
        let mut line = Line {
            number: 1,
            first: 0,
            end: 0,
            on_path: 0,
        };
        let mut greatest = line;
        for end in 0..text.len().saturating_add(1) {
            line.end = end;
            line.on_path = line
                .on_path
                .saturating_add(count_at(self.counts.as_slice(), end));
            if text.get(end).copied().unwrap_or(b'\n') == b'\n' {
                if line.on_path > greatest.on_path {
                    greatest = line;
                }
                line.number = line.number.saturating_add(1);
                line.first = end.saturating_add(1);
                line.on_path = 0;
            }
        }
        greatest
    }
}

// The beginning of a line of the program's text, without blanks around it.
fn push_words(text: &mut String, case: &Case<'_>, line: &Line) -> Result<(), AllocError> {
    text.push_str("  ")?;
    let bytes = case.text.get(line.first..line.end).unwrap_or(&[]);
    let shown = printed(case.alloc, bytes)?;
    let mut count: usize = 0;
    for symbol in shown.as_str().trim().chars() {
        if count == SHOWN {
            return text.push_str(" ..");
        }
        text.push(symbol)?;
        count = count.saturating_add(1);
    }
    Ok(())
}

// The number of events of the path before an event.
fn ahead_of(ahead: &[u32], event: usize) -> u32 {
    ahead.get(event).copied().unwrap_or(0)
}

fn count_at(counts: &[u64], place: usize) -> u64 {
    counts.get(place).copied().unwrap_or(0)
}
