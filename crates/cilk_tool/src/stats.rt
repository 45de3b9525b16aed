//! The statistics of a run by workers: the table of `threads --stats`.

use crate::explaining::{of_ending, of_fault};
use crate::running::Ending;
use cilk_checker::every::settle_every;
use cilk_commands::input as input_of;
use cilk_commands::reply::{Answer, Failure};
use cilk_findings::fault::CaseFault;
use cilk_findings::runs::Run;
use cilk_messages::threads_words::Order;
use cilk_messages::words::Origin;
use cilk_report::{CaseTexts, Kept, push_cells};
use cilk_shared::yard::Segment;
use cilk_types::event::{Event, StrandNo};
use cilk_types::input::Input;
use cilk_workers::gate::{Gate, Open};
use itoa::Buffer;
use std::alloc::{AllocError, Global};
use std::sync::atomic::{AtomicU32, AtomicU64, Ordering};
use std::time::{Clock, Instant};

// The most strands of a run: each has an event.
const STRANDS: u32 = 1_000_000;

/// A gate that knows something of the run when it has ended.
pub trait Watch: Gate + Sync {
    /// Returns the text that follows an ending.
    fn behind_ending(
        &self,
        alloc: Global,
        order: &Order<'_>,
        ending: &Ending,
        kept: &Kept,
    ) -> Result<String, CaseFault>;

    /// Returns the text that follows a failure.
    fn behind_fault(
        &self,
        alloc: Global,
        order: &Order<'_>,
        failure: &Failure<'_>,
        kept: &Kept,
    ) -> Result<String, CaseFault>;
}

/// Without statistics, the reply is explained.
impl Watch for Open {
    fn behind_ending(
        &self,
        alloc: Global,
        order: &Order<'_>,
        ending: &Ending,
        kept: &Kept,
    ) -> Result<String, CaseFault> {
        of_ending(alloc, order, ending, kept)
    }

    fn behind_fault(
        &self,
        alloc: Global,
        order: &Order<'_>,
        failure: &Failure<'_>,
        kept: &Kept,
    ) -> Result<String, CaseFault> {
        of_fault(alloc, order, failure, kept)
    }
}

/// Notes which worker begins each strand, and when the first strand begins.
#[derive(Drop)]
pub struct Tally<'a, H> {
    clock: &'a H,
    start: Option<Instant>,
    explains: bool,
    // The microseconds from the start until the run begins.
    begun: AtomicU64,
    // By strands: the number of the worker, from 1; 0 for none.
    workers: Vec<AtomicU32>,
}

impl<'a, H: Clock> Tally<'a, H> {
    /// Begins a tally.
    pub fn new(clock: &'a H, alloc: Global, explains: bool) -> Result<Self, AllocError> {
        let mut workers = Vec::new(alloc);
        for _ in 0..STRANDS {
            workers.push(AtomicU32::new(0))?;
        }
        Ok(Tally {
            clock,
            start: Instant::now(clock).ok(),
            explains,
            begun: AtomicU64::new(0),
            workers,
        })
    }

    // The microseconds since the start, if the clock can be read.
    fn micros(&self) -> Option<u64> {
        let start = self.start?;
        let passed = start.elapsed(self.clock).ok()?;
        let seconds = passed.as_secs().saturating_mul(1_000_000);
        Some(seconds.saturating_add(u64::from(passed.subsec_micros())))
    }

    // The worker that began a strand, from 1; 0 for none.
    fn worker_of(&self, strand: usize) -> usize {
        match strand
            .checked_sub(1)
            .and_then(|place| self.workers.get(place))
        {
            Some(worker) => worker.load(Ordering::SeqCst) as usize,
            None => 0,
        }
    }
}

impl<H: Clock> Gate for Tally<'_, H> {
    fn at(&self, worker: u32, strand: StrandNo, _segment: &Segment) {
        if strand == 1 {
            self.begun
                .store(self.micros().unwrap_or(0), Ordering::SeqCst);
        }
        if let Some(place) = self.workers.get(strand.saturating_sub(1) as usize) {
            place.store(worker, Ordering::SeqCst);
        }
    }
}

impl<H: Clock + Sync> Watch for Tally<'_, H> {
    fn behind_ending(
        &self,
        alloc: Global,
        order: &Order<'_>,
        ending: &Ending,
        kept: &Kept,
    ) -> Result<String, CaseFault> {
        let ended = self.micros();
        let mut text = if self.explains {
            of_ending(alloc, order, ending, kept)?
        } else {
            String::new(alloc)
        };
        if matches!(ending, Ending::Answer(Answer::Outcome { .. })) {
            self.push_table(alloc, &mut text, order, kept)?;
            if let Some(ended) = ended {
                self.push_seconds(&mut text, ended)?;
            }
            push_alike(alloc, &mut text, order, kept)?;
        }
        Ok(text)
    }

    fn behind_fault(
        &self,
        alloc: Global,
        order: &Order<'_>,
        failure: &Failure<'_>,
        kept: &Kept,
    ) -> Result<String, CaseFault> {
        if self.explains {
            of_fault(alloc, order, failure, kept)
        } else {
            Ok(String::new(alloc))
        }
    }
}

/// The strands that a worker began, and how many of these were stolen continuations.
#[derive(Clone, Copy)]
struct Count {
    strands: usize,
    stolen: usize,
}

const NOTHING: Count = Count {
    strands: 0,
    stolen: 0,
};

/// The counts of a run's strands.
struct Counting {
    // By workers; in the first place all of them.
    counts: Vec<Count>,
    // The strand of each spawn whose child is open, and 0 for a call.
    spawns: Vec<usize>,
}

// Written out, so that a proof follows one call where a count is dropped.
impl Drop for Counting {
    fn drop(self) {
        let Counting {
            counts: _counts,
            spawns: _spawns,
        } = self;
    }
}

impl<H: Clock> Tally<'_, H> {
    // A row for each worker, and one for all. `kept` has the program and its input.
    fn push_table(
        &self,
        alloc: Global,
        text: &mut String,
        order: &Order<'_>,
        kept: &Kept,
    ) -> Result<(), CaseFault> {
        let Some(texts) = CaseTexts::of(Origin::File(order.program), order.input, kept)? else {
            return Err(CaseFault::Unfit);
        };
        let case = texts.case(alloc)?;
        let run = Run::of(&case)?;
        let mut counting = Counting {
            counts: Vec::new(alloc),
            spawns: Vec::new(alloc),
        };
        self.count(&run, order.workers, &mut counting)?;
        Ok(push_counts(text, counting.counts.as_slice())?)
    }

    // Counts the strands of a run by their workers.
    fn count(&self, run: &Run, workers: u32, counting: &mut Counting) -> Result<(), AllocError> {
        counting
            .counts
            .resize((workers as usize).saturating_add(1), NOTHING)?;
        let mut strand: usize = 0;
        for event in run.trace.as_slice() {
            let spawn = match event {
                Event::Spawn { .. } => {
                    counting.spawns.push(strand)?;
                    continue;
                }
                Event::Call { .. } => {
                    counting.spawns.push(0)?;
                    continue;
                }
                Event::Resume { .. } => counting.spawns.pop().unwrap_or(0),
                Event::Begin { .. } | Event::Sync => 0,
                _ => continue,
            };
            strand = strand.saturating_add(1);
            let worker = self.worker_of(strand);
            let is_stolen = spawn > 0 && self.worker_of(spawn) != worker;
            raise(&mut counting.counts, worker, is_stolen);
            if worker > 0 {
                raise(&mut counting.counts, 0, is_stolen);
            }
        }
        Ok(())
    }

    // The seconds from the run's begin to its end.
    fn push_seconds(&self, text: &mut String, ended: u64) -> Result<(), AllocError> {
        let passed = ended.saturating_sub(self.begun.load(Ordering::SeqCst));
        let seconds = passed / 1_000_000;
        let mut buffer = Buffer::new();
        let rest = buffer
            .format(1_000_000 + passed % 1_000_000)
            .strip_prefix("1")
            .unwrap_or("");
        write!(text, "seconds {seconds}.{rest}\n")
    }
}

// Of a run on other numbers: whether those that differ decide nothing, so that no run departs from the plan.
fn push_alike(
    alloc: Global,
    text: &mut String,
    order: &Order<'_>,
    kept: &Kept,
) -> Result<(), CaseFault> {
    if order.on.is_none() {
        return Ok(());
    }
    let Some(texts) = CaseTexts::of(Origin::File(order.program), order.input, kept)? else {
        return Err(CaseFault::Unfit);
    };
    let case = texts.case(alloc)?;
    let place = if order.input.is_some() { 2 } else { 1 };
    let Ok(others) = input_of(alloc, kept.text(place)?) else {
        return Err(CaseFault::Unfit);
    };
    let is_alike = match differing(alloc, &case.input, &others)? {
        Some(hidden) => settle_every(
            alloc,
            &case.program,
            &case.input,
            hidden.as_slice(),
        )?.is_on_every,
        None => false,
    };
    text.push_str(if is_alike { ALIKE } else { UNALIKE })?;
    Ok(())
}

const ALIKE: &str =
    "inputs alike: the numbers that differ decide nothing, so no run on them departs\n";

const UNALIKE: &str =
    "inputs not known to be alike: that no run on them departs is known from this run alone\n";

// Which numbers of two inputs differ, if there are as many of them.
fn differing(
    alloc: Global,
    input: &Input,
    others: &Input,
) -> Result<Option<Vec<bool>>, AllocError> {
    if input.as_slice().len() != others.as_slice().len() {
        return Ok(None);
    }
    let mut flags = Vec::new(alloc);
    for (own, other) in input.as_slice().iter().zip(others.as_slice().iter()) {
        flags.push(*own != *other)?;
    }
    Ok(Some(flags))
}

fn raise(counts: &mut Vec<Count>, worker: usize, is_stolen: bool) {
    if let Some(count) = counts.get_mut(worker) {
        count.strands = count.strands.saturating_add(1);
        if is_stolen {
            count.stolen = count.stolen.saturating_add(1);
        }
    }
}

// The width of the first column.
const WIDTH: usize = 6;

// Adds a row for each worker, then one for all of them, which is the first count.
fn push_counts(text: &mut String, counts: &[Count]) -> Result<(), AllocError> {
    push_cells(text, "worker", &["strands", "stolen"], WIDTH, false)?;
    for number in 1..counts.len() {
        let mut name = Buffer::new();
        push_count(text, name.format(number as u64), counts[number])?;
    }
    match counts {
        [all, ..] => push_count(text, "all", *all),
        [] => Ok(()),
    }
}

fn push_count(text: &mut String, name: &str, count: Count) -> Result<(), AllocError> {
    let (mut strands, mut stolen) = (Buffer::new(), Buffer::new());
    let cells = [
        strands.format(count.strands as u64),
        stolen.format(count.stolen as u64),
    ];
    push_cells(text, name, &cells, WIDTH, false)
}
