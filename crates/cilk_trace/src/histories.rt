//! What is kept of each cell of a trace, by pages.

ghost use Rattle.std.specs.Prelude.{◌≡◌, ◌≤◌, ◌<◌, ◌+◌, ◌*◌, ◌/◌, ◌^◌, ℕ, IfOk, IsTrue, OnOk, false, length};

use crate::intervals::Intervals;
use crate::line::Cells;
use crate::positions::Positions;
use std::alloc::{AllocError, Global};

/// How many cells a page has.
const PAGE: usize = 4_096;

/// What a line does to its cells.
#[derive(Clone, Copy)]
pub enum Kind {
    Read,
    Write,
    Clear,
}

/// A grain of a new page has 2 ^ 3 cells.
const COARSEST: u32 = 3;

/// What is kept of 4,096 neighbouring cells, by grains: the 2 ^ `shift` neighbouring cells of a grain
/// have one history. There are no grains before the first access of a cell of the page.
#[derive(Drop)]
pub struct Page {
    alloc: Global,
    grains: Vec<Positions>,
    shift: u32,
    ghost small: { shift ≤ 3 },
}

/// What is kept of cells, by pages: cell c is in the page with number c / 4,096. Memory: 32 bytes
/// for each page up to the last one with an access, and 8 for each grain of those with one. A grain is
/// 8 cells, until a line begins or ends inside of one: then the page's grains are made 4, 2 or 1.
#[derive(Drop)]
pub struct Histories {
    alloc: Global,
    pages: Vec<Page>,
}

// The number of cells of a grain.
fn cells_of(shift: u32) -> usize
    requires { shift ≤ 3 }
    ensures { result ≡ 2 ^ shift }
{
    1 << shift
}

impl Page {
    ghost use Rattle.cilk_trace.specs.IntervalStacks.{IsAscending};
    ghost use Rattle.cilk_trace.specs.Pages.{AreMet, IsLeastRace, IsParted, kept_by, none, part, positions_at};

    // Makes a page without an access.
    fn new(alloc: Global) -> Page
        ensures { (c : ℕ) → kept_by result c ≡ none }
    {
        Page {
            alloc,
            grains: Vec::new(alloc),
            shift: COARSEST,
        }
    }

    // Tells whether grains begin at both places of the page.
    fn is_parted(&self, from: usize, to: usize) -> bool
        ensures yes { IsTrue result → IsParted self.now.shift from to }
        ensures no { result ≡ false → 0 < self.now.shift }
    {
        let grain = cells_of(self.shift);
        from % grain == 0 && to % grain == 0
    }

    // Makes each grain two, which keep what it kept.
    fn halve(&mut self) -> Result<(), AllocError>
        requires { 0 < self.old.shift }
        ensures shift { OnOk result (self.new.shift + 1 ≡ self.old.shift) }
        ensures same { OnOk result ((c : ℕ) → kept_by self.new c ≡ kept_by self.old c) }
    {
        let mut halves = Vec::with_capacity(self.alloc, PAGE >> (self.shift - 1))?;
        'each: for place in 0..self.grains.len() {
            let kept = self.grains[place];
            halves.push(kept)?;
            halves.push(kept)?;
        }
        self.grains = halves;
        self.shift -= 1;
        Ok(())
    }

    // Makes room for all cells of the page.
    fn fill(&mut self) -> Result<(), AllocError>
        ensures room { OnOk result (4096 / 2 ^ self.new.shift ≤ length self.new.grains.items) }
        ensures shift { self.new.shift ≡ self.old.shift }
        ensures same { OnOk result ((c : ℕ) → kept_by self.new c ≡ kept_by self.old c) }
    {
        let count = PAGE >> self.shift;
        if self.grains.len() >= count {
            return Ok(());
        }
        self.grains.resize(count, Positions::NONE)?;
        Ok(())
    }

    // Makes room for all cells, in grains of which some begin at both places.
    fn fit(&mut self, from: usize, to: usize) -> Result<(), AllocError>
        ensures parted { OnOk result (IsParted self.new.shift from to) }
        ensures room { OnOk result (4096 / 2 ^ self.new.shift ≤ length self.new.grains.items) }
        ensures same { OnOk result ((c : ℕ) → kept_by self.new c ≡ kept_by self.old c) }
    {
        'finer: while !self.is_parted(from, to) {
            self.halve()?;
        }
        self.fill()
    }

    // Takes the cells from place `from` of the page on, up to `to`, as `Histories::meet` does.
    fn meet(
        &mut self,
        kind: Kind,
        from: usize,
        to: usize,
        here: u32,
        intervals: &Intervals,
    ) -> Result<u32, AllocError>
        requires order { from ≤ to }
        requires within { to ≤ 4096 }
        ensures met { IfOk result (λ raced. IsAscending intervals.now.children → raced ≡ 0 → AreMet intervals.now kind here (part from to) (kept_by self.old) (kept_by self.new)) }
        ensures race { IfOk result (λ raced. IsAscending intervals.now.children → IsLeastRace intervals.now kind (part from to) (kept_by self.old) raced) }
    {
        self.fit(from, to)?;
        Ok(self.meet_grains(kind, from >> self.shift, to >> self.shift, here, intervals))
    }

    // Takes the grains from one on, up to another.
    fn meet_grains(
        &mut self,
        kind: Kind,
        from: usize,
        to: usize,
        here: u32,
        intervals: &Intervals,
    ) -> u32
        requires order { from ≤ to }
        requires within { to ≤ length self.old.grains.items }
        ensures met { IsAscending intervals.now.children → result ≡ 0 → AreMet intervals.now kind here (part from to) (positions_at self.old.grains.items) (positions_at self.new.grains.items) }
        ensures race { IsAscending intervals.now.children → IsLeastRace intervals.now kind (part from to) (positions_at self.old.grains.items) result }
        ensures shift { self.new.shift ≡ self.old.shift }
    {
        'each: for place in from..to {
            let raced = self.grains[place].meet(kind, here, intervals);
            if raced > 0 {
                return raced;
            }
        }
        0
    }
}

impl Histories {
    ghost use Rattle.std.specs.Prelude.{slice_get};
    ghost use Rattle.cilk_trace.specs.IntervalStacks.{IsAscending};
    ghost use Rattle.cilk_trace.specs.Pages.{AreMet, IsLeastRace, kept_in, none, part, positions_of};

    /// Makes the histories of cells without an access.
    pub fn new(alloc: Global) -> Histories
        ensures { (c : ℕ) → positions_of result.pages.items c ≡ none }
    {
        Histories {
            alloc,
            pages: Vec::new(alloc),
        }
    }

    /// Takes a line's cells, by their order. Returns the kept access that races with it on the first
    /// cell with one, and stops there; or 0, where no kept access races with it.
    pub fn meet(
        &mut self,
        kind: Kind,
        cells: Cells,
        here: u32,
        intervals: &Intervals,
    ) -> Result<u32, AllocError>
        ensures met { IfOk result (λ raced. IsAscending intervals.now.children → raced ≡ 0 → AreMet intervals.now kind here cells (positions_of self.old.pages.items) (positions_of self.new.pages.items)) }
        ensures race { IfOk result (λ raced. IsAscending intervals.now.children → IsLeastRace intervals.now kind cells (positions_of self.old.pages.items) raced) }
    {
        let mut at = cells.first as usize;
        let last = cells.first as usize + cells.count as usize;
        'pages: while at < last {
            let end = last.min((at / PAGE + 1) * PAGE);
            let raced = self.meet_page(kind, at, end, here, intervals)?;
            if raced > 0 {
                return Ok(raced);
            }
            at = end;
        }
        Ok(0)
    }

    // Takes cells of one page. Those of a page without an access have nothing to be cleared.
    fn meet_page(
        &mut self,
        kind: Kind,
        from: usize,
        to: usize,
        here: u32,
        intervals: &Intervals,
    ) -> Result<u32, AllocError>
        requires order { from < to }
        requires one { to ≤ 4096 * (from / 4096) + 4096 }
        ensures met { IfOk result (λ raced. IsAscending intervals.now.children → raced ≡ 0 → AreMet intervals.now kind here (part from to) (positions_of self.old.pages.items) (positions_of self.new.pages.items)) }
        ensures race { IfOk result (λ raced. IsAscending intervals.now.children → IsLeastRace intervals.now kind (part from to) (positions_of self.old.pages.items) raced) }
    {
        let number = from / PAGE;
        if self.has_nothing(kind, number) {
            return Ok(0);
        }
        self.reach(number)?;
        let first = from % PAGE;
        self.pages[number].meet(kind, first, first + (to - from), here, intervals)
    }

    // Tells whether a line of this kind has nothing to do in a page: a clear, without an access.
    fn has_nothing(&self, kind: Kind, number: usize) -> bool
        ensures { IsTrue result → (kind ≡ Kind.Clear) × ((c : ℕ) → kept_in (slice_get self.now.pages.items number) c ≡ none) }
    {
        match kind {
            Kind::Clear => !self.is_touched(number),
            _ => false,
        }
    }

    // Tells whether a cell of the page with this number has had an access.
    fn is_touched(&self, number: usize) -> bool
        ensures { result ≡ false → (c : ℕ) → kept_in (slice_get self.now.pages.items number) c ≡ none }
    {
        if number >= self.pages.len() {
            return false;
        }
        !self.pages[number].grains.is_empty()
    }

    // Makes pages up to the one with this number.
    fn reach(&mut self, number: usize) -> Result<(), AllocError>
        ensures page { OnOk result (number < length self.new.pages.items) }
        ensures same { OnOk result ((c : ℕ) → positions_of self.new.pages.items c ≡ positions_of self.old.pages.items c) }
    {
        'grow: while self.pages.len() <= number {
            self.pages.push(Page::new(self.alloc))?;
        }
        Ok(())
    }
}
