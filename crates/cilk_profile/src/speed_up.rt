//! Bounds of the speed-up by several workers.

use crate::burdened::BURDEN;
use crate::rows::{Table, push_cells};
use crate::totals::Totals;
use cilk_messages::sentence::say;
use std::alloc::AllocError;

// The numbers of workers of the table.
const WORKERS: [usize; 7] = [1, 2, 4, 8, 16, 32, 64];

// The head of the first column.
const HEAD: &str = "speed-up by workers";

const FORMULA: &str =
    "low est. by P: work / (work / P + 1.7 burdened spans), with a burden of {} for each spawn that a steal may take\n";

impl Table<'_> {
    /// Adds a table of the speed-up by 1 to 64 workers: a low estimate from the burdened span, and the
    /// most that work and span allow. Unless it is for a spreadsheet, a line says what is estimated.
    pub fn push_speed_ups(&self, totals: &Totals, text: &mut String) -> Result<(), AllocError> {
        text.push('\n')?;
        push_cells(
            text,
            HEAD,
            &["low est.", "at most"],
            HEAD.len(),
            self.commas,
        )?;
        for workers in WORKERS {
            self.push_title(text, &say("{}").count(workers), HEAD.len(), &[])?;
            self.push_point(text, totals.speed_up_estimate(workers as u64))?;
            self.push_point(text, totals.speed_up_bound(workers as u64))?;
            text.push('\n')?;
        }
        if self.commas {
            return Ok(());
        }
        self.scene.push(text, &say(FORMULA).count(BURDEN as usize))
    }

    // Adds a number of hundredths, with a point.
    fn push_point(&self, text: &mut String, number: u64) -> Result<(), AllocError> {
        let whole = number / 100;
        let rest = number % 100;
        if self.commas {
            write!(text, ",{whole}.{rest:02}")
        } else {
            write!(text, " {whole:>6}.{rest:02}")
        }
    }
}
