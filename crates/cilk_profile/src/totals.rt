//! Work and span of a run.

ghost use Rattle.std.specs.Prelude.{IfOk, IfErr};
ghost use Rattle.cilk_profile.specs.Measures.{AreMeasures, AreTotals};
ghost use Rattle.cilk_program.specs.Sources.{source};
ghost use Rattle.cilk_serial.specs.Ran.{IsRunFault};

use crate::burdened::burdened_span;
use cilk_cert_maker::column::Columns;
use cilk_cert_maker::columns::columns;
use cilk_program::program::Program;
use cilk_serial::fault::RunFault;
use cilk_serial::run::run;
use cilk_tree::building::tree_of;
use cilk_tree::span::span;
use cilk_types::input::Input;
use cilk_types::trace::Trace;
use std::alloc::{AllocError, Global};

/// The work, the span and the burdened span of a run, in events, and its numbers of frames and
/// strands.
#[derive(Clone, Copy)]
pub struct Totals {
    pub work: usize,
    pub span: u64,
    pub burdened_span: u64,
    pub frames: usize,
    pub strands: usize,
}

/// Runs a program serially and returns its totals and events. Cost: that of the run; memory: linear
/// in its events.
pub fn measure(alloc: Global, program: &Program, input: &Input) -> Result<(Totals, Trace), RunFault>
    ensures measures { IfOk result (λ r. AreMeasures (source program.now) input.now r.0 r.1) }
    ensures fault { IfErr result (λ e. IsRunFault (source program.now) input.now e) }
{
    let (_outcome, trace) = run(alloc, program, input)?;
    let totals = totals_of(alloc, &trace)?;
    Ok((totals, trace))
}

/// Returns the totals of a run's events.
pub fn totals_of(alloc: Global, trace: &Trace) -> Result<Totals, AllocError>
    ensures { IfOk result (λ t. AreTotals trace.now t) }
{
    let tree = tree_of(alloc, trace)?;
    let span = span(alloc, trace, &tree)?;
    let burdened_span = burdened_span(alloc, &tree)?;
    let Columns { frames, owners } = columns(alloc, trace)?;
    Ok(Totals {
        work: trace.len(),
        span,
        burdened_span,
        frames: frames.len(),
        strands: owners.len(),
    })
}

/// The speed-up by a number of workers, in hundredths, rounded down, and 0 for a span of 0 (He, Leiserson
/// and Leiserson 2010).
impl Totals {
    /// Returns the parallelism: work over span.
    pub fn parallelism(&self) -> u64 {
        let scaled = (self.work as u64).saturating_mul(100);
        scaled.checked_div(self.span).unwrap_or(0)
    }

    /// Returns an estimate: work over the time of a greedy schedule in which 1.7 burdened spans are
    /// added to each worker's share of the work. One worker steals nothing, and where nothing runs in
    /// parallel there is nothing to steal.
    pub fn speed_up_estimate(&self, workers: u64) -> u64 {
        if workers <= 1 || self.parallelism() <= 100 {
            return 100;
        }
        let share = (self.work as u64).saturating_mul(10);
        let spans = self
            .burdened_span
            .saturating_mul(workers)
            .saturating_mul(17);
        let scaled = share.saturating_mul(100).saturating_mul(workers);
        scaled.checked_div(share.saturating_add(spans)).unwrap_or(0)
    }

    /// Returns the most that work and span allow: the number of workers, or the parallelism if that
    /// is less.
    pub fn speed_up_bound(&self, workers: u64) -> u64 {
        workers.saturating_mul(100).min(self.parallelism())
    }
}
