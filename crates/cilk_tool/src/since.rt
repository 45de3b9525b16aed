//! A certificate's file as a source that tells whether any read failed.

ghost use Rattle.std.specs.Prelude.{◌≡◌, ◌≤◌, ℕ, List};
ghost use Rattle.cilk_commands.specs.Files.{Failures, failures};

use cilk_checker::source::{PullFault, Source};
use cilk_commands::files::Files;
use cilk_commands::parts::PartSource;
use std::marker::{Brand, PhantomData};

/// A moment, by the reads that had failed.
pub(crate) trait Moment {
    ghost failed: { Failures };
}

// The proof of a call with a brand picks its moment (`ghosts-checked`). If it picks none, the moment is
// this one, before all reads.
impl Moment for Brand {
    ghost failed = { failures 0 0 (λ _. 0) };
}

/// A file in parts, after a moment. If no more reads have failed than at that moment, the failed
/// reads are the same.
#[derive(Drop)]
pub(crate) struct PartsSince<'f, 'p, F: Files, M: Moment> {
    pub parts: PartSource<'f, 'p, F>,
    pub moment: PhantomData<M>,
    ghost risen: { M.failed.count ≤ (F.failed parts.files.now).count },
    ghost same: { (F.failed parts.files.now).count ≡ M.failed.count → ((F.failed parts.files.now).at ≡ M.failed.at)
        × ((p : List ℕ) → (F.failed parts.files.now).elsewhere p ≡ M.failed.elsewhere p) },
}

impl<F: Files, M: Moment> Source for PartsSince<'_, '_, F, M> {
    ghost use Rattle.std.specs.Prelude.{drop, option_map};
    ghost use Rattle.cilk_commands.specs.Sources.{kept_of};

    ghost failed = { λ s. (F.failed s.parts.files.now).count };

    ghost remaining = { λ s. option_map (drop s.parts.at) (F.holds s.parts.files.now s.parts.path.now) };

    ghost last = { λ s. s.parts.last };

    ghost lender = { λ s. s.parts.files.ghost_name };

    // Failed reads before, those of other files than the certificate's, both paths, and the contents of
    // both.
    ghost kept = { λ s. kept_of s.parts.before (F.failed s.parts.files.now) (F.holds s.parts.files.now) s.parts.path.now s.parts.other.now };

    fn pull(&mut self, into: &mut [u8]) -> Result<usize, PullFault> {
        self.parts.pull(into)
    }

    fn failures(&self) -> u64 {
        self.parts.failures()
    }
}
