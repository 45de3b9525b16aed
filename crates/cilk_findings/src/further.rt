//! The further races of a run, one for each two places of the text.
//!
//! Of a cell's accesses from one place the one of greatest Hebrew number is kept: if any of them
//! runs in parallel with a later access, that one does (`cilk_labels`).

use crate::scene::Scene;
use cilk_labels::{Labels, label};
use cilk_messages::sentence::{Part, say};
use cilk_tree::building::tree_of;
use cilk_tree::mark::Mark;
use cilk_types::event::Event;
use std::alloc::AllocError;

/// The most further races that are shown.
const SHOWN: usize = 10;

/// The most comparisons of accesses: what a longer search finds isn't shown.
const TRIES: usize = 10_000_000;

/// An access of a cell from a byte of the text, and the place of the cell's next one, from 1; 0 for
/// none. Of a run there may be as many as events, so it has 20 bytes.
#[derive(Clone, Copy)]
struct Access {
    at: u32,
    writes: bool,
    hebrew: u32,
    index: u32,
    next: u32,
}

/// Two bytes of the text, in order, and an event from each: they race.
type Found = ((usize, usize), (usize, usize));

/// The accesses so far, linked by their cells, and the races. The first race isn't shown.
struct Search<'a> {
    scene: Scene<'a>,
    heads: Vec<u32>,
    accesses: Vec<Access>,
    found: Vec<Found>,
    tries: usize,
}

// Written out, so that a proof follows one call where a search is dropped.
impl Drop for Search<'_> {
    fn drop(self) {
        let Search {
            scene: _scene,
            heads: _heads,
            accesses: _accesses,
            found: _found,
            tries: _tries,
        } = self;
    }
}

/// Adds a line for each two places of the text whose accesses race, but for those of two events. A run
/// that a fault stops isn't looked at.
pub fn push_further(
    scene: &Scene<'_>,
    report: &mut String,
    earlier: usize,
    later: usize,
) -> Result<(), AllocError> {
    let alloc = scene.case.alloc;
    if scene.run.outcome.is_none() {
        return Ok(());
    }
    let tree = tree_of(alloc, &scene.run.trace)?;
    let labels = label(alloc, &tree)?;
    push_labelled(scene, report, &labels, (earlier, later))
}

fn push_labelled(
    scene: &Scene<'_>,
    report: &mut String,
    labels: &Labels,
    first: (usize, usize),
) -> Result<(), AllocError> {
    let alloc = scene.case.alloc;
    let mut search = Search {
        scene: *scene,
        heads: Vec::new(alloc),
        accesses: Vec::new(alloc),
        found: Vec::new(alloc),
        tries: TRIES,
    };
    search.push_all(report, labels, first)
}

impl Search<'_> {
    fn push_all(
        &mut self,
        report: &mut String,
        labels: &Labels,
        first: (usize, usize),
    ) -> Result<(), AllocError> {
        self.note(first.0, first.1)?;
        self.pass(labels)?;
        self.push(report)
    }

    fn pass(&mut self, labels: &Labels) -> Result<(), AllocError> {
        let mut strand: u32 = 0;
        for index in 0..self.scene.run.trace.len() {
            let Some(event) = self.scene.run.event(index) else {
                return Ok(());
            };
            strand = strand.saturating_add(Mark::of(&event).strands());
            if strand == 0 || strand > labels.count() {
                return Ok(());
            }
            if let Some((cell, writes)) = self.scene.access(index) {
                let here = Access {
                    at: small(self.scene.byte_of(index)),
                    writes,
                    hebrew: labels.hebrew(strand),
                    index: small(index),
                    next: 0,
                };
                self.meet(cell, here)?;
            }
        }
        Ok(())
    }

    // Compares an access with those of its cell that are kept, and keeps it.
    fn meet(&mut self, cell: usize, here: Access) -> Result<(), AllocError> {
        if self.heads.len() <= cell {
            self.heads.resize(cell.saturating_add(1), 0)?;
        }
        let head = self.heads.get(cell).copied().unwrap_or(0);
        let mut at = head;
        let mut is_kept = false;
        for _access in 0..self.tries {
            let Some(other) = self.access(at) else {
                break;
            };
            if other.hebrew > here.hebrew && (other.writes || here.writes) {
                self.note(other.index as usize, here.index as usize)?;
            }
            if other.at == here.at && other.writes == here.writes {
                is_kept = true;
                self.improve(at, here);
            }
            self.tries = self.tries.saturating_sub(1);
            at = other.next;
        }
        if is_kept {
            return Ok(());
        }
        self.accesses.push(Access { next: head, ..here })?;
        if let Some(head) = self.heads.get_mut(cell) {
            *head = small(self.accesses.len());
        }
        Ok(())
    }

    fn access(&self, place: u32) -> Option<Access> {
        self.accesses.get((place as usize).checked_sub(1)?).copied()
    }

    fn improve(&mut self, place: u32, here: Access) {
        if let Some(kept) = self.accesses.get_mut((place as usize).saturating_sub(1))
            && kept.hebrew < here.hebrew
        {
            kept.hebrew = here.hebrew;
            kept.index = here.index;
        }
    }

    // Notes two events that race, unless others do from the same bytes.
    fn note(&mut self, earlier: usize, later: usize) -> Result<(), AllocError> {
        let (at, behind) = (self.scene.byte_of(earlier), self.scene.byte_of(later));
        let (places, events) = if at <= behind {
            ((at, behind), (earlier, later))
        } else {
            ((behind, at), (later, earlier))
        };
        for ((first, second), _) in &self.found {
            self.tries = self.tries.saturating_sub(1);
            if *first == places.0 && *second == places.1 {
                return Ok(());
            }
        }
        self.found.push((places, events))?;
        Ok(())
    }

    fn push(&mut self, report: &mut String) -> Result<(), AllocError> {
        if self.found.is_empty() {
            return Ok(());
        }
        self.found.remove(0);
        self.found.sort()?;
        for found in self.found.iter().take(SHOWN) {
            self.push_race(report, found)?;
        }
        let more = self.found.len().saturating_sub(SHOWN);
        if more == 0 {
            return Ok(());
        }
        let words = say("and {} more pair{} of places race\n").counted(more);
        self.scene.push(report, &words)
    }

    fn push_race(&self, report: &mut String, found: &Found) -> Result<(), AllocError> {
        let scene = &self.scene;
        let ((first, second), (one, other)) = *found;
        let (Some(one), Some(other)) = (scene.run.event(one), scene.run.event(other)) else {
            return Ok(());
        };
        let place = scene.place(first);
        scene.push(report, &say("{}: note: another race: ").with(place))?;
        scene.push(report, &scene.accessed(&one))?;
        let words = if first == second {
            say(" is {} here, and {} here too\n")
        } else {
            say(" is {} here, and {} at {}\n")
        };
        let words = words.with(done_by(&one)).with(done_by(&other));
        scene.push(report, &words.with(scene.place(second)))
    }
}

// A place or a byte in 32 bits, which count them all.
fn small(number: usize) -> u32 {
    u32::try_from(number).unwrap_or(u32::MAX)
}

fn done_by(event: &Event) -> Part<'static> {
    Part::Text(match event {
        Event::Write { .. } => "written",
        _ => "read",
    })
}
