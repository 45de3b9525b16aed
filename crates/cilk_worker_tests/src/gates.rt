//! Gates: one counts how often each strand begins, another holds strands.

use cilk_shared::yard::Segment;
use cilk_types::event::StrandNo;
use cilk_workers::gate::Gate;
use std::alloc::{AllocError, Global};
use std::hint::spin_loop;
use std::sync::atomic::{AtomicBool, AtomicU64, Ordering};

// The most turns for which a strand is held.
const MOST_TURNS: u32 = 20_000_000;

/// Counts how often each strand of a plan begins.
#[derive(Drop)]
pub struct Counting {
    // The counts, by the strand's number.
    begun: Vec<AtomicU64>,
    // The count of strands that the plan doesn't have.
    others: AtomicU64,
}

impl Counting {
    /// Creates a counter for `strands` strands.
    pub fn new(alloc: Global, strands: u64) -> Result<Counting, AllocError> {
        let mut begun = Vec::new(alloc);
        for _ in 0..strands {
            begun.push(AtomicU64::new(0))?;
        }
        Ok(Counting {
            begun,
            others: AtomicU64::new(0),
        })
    }

    /// Returns the number of strands that have begun `times` times.
    pub fn count(&self, times: u64) -> u64 {
        let mut count: u64 = 0;
        for begun in self.begun.as_slice() {
            if begun.load(Ordering::SeqCst) == times {
                count = count.saturating_add(1);
            }
        }
        count
    }

    /// Returns how often strands have begun that the plan doesn't have.
    pub fn others(&self) -> u64 {
        self.others.load(Ordering::SeqCst)
    }

    // The counter of a strand. Strands are numbered from 1.
    fn times(&self, strand: StrandNo) -> &AtomicU64 {
        if strand == 0 {
            return &self.others;
        }
        match self.begun.get(strand as usize - 1) {
            Some(times) => times,
            None => &self.others,
        }
    }
}

impl Gate for Counting {
    fn at(&self, _worker: u32, strand: StrandNo, _segment: &Segment) {
        self.times(strand).fetch_add(1, Ordering::SeqCst);
    }
}

/// Holds some strands, each until all awaited strands have begun or the turns run out.
#[derive(Drop)]
pub struct Holding {
    held: &'static [StrandNo],
    awaited: &'static [StrandNo],
    begun: AtomicU64,
    ran_out: AtomicBool,
}

impl Holding {
    pub fn new(held: &'static [StrandNo], awaited: &'static [StrandNo]) -> Holding {
        Holding {
            held,
            awaited,
            begun: AtomicU64::new(0),
            ran_out: AtomicBool::new(false),
        }
    }

    /// Returns whether every held strand was released by the awaited ones.
    pub fn was_opened(&self) -> bool {
        !self.ran_out.load(Ordering::SeqCst)
    }

    fn is_open(&self) -> bool {
        self.begun.load(Ordering::SeqCst) >= self.awaited.len() as u64
    }

    fn hold(&self) {
        for _ in 0..MOST_TURNS {
            if self.is_open() {
                return;
            }
            spin_loop();
        }
        self.ran_out.store(true, Ordering::SeqCst);
    }
}

impl Gate for Holding {
    fn at(&self, _worker: u32, strand: StrandNo, _segment: &Segment) {
        if self.awaited.contains(&strand) {
            self.begun.fetch_add(1, Ordering::SeqCst);
        }
        if self.held.contains(&strand) {
            self.hold();
        }
    }
}
