//! The shared words at the start of a run.

ghost use Rattle.std.specs.Prelude.{◌≡◌, ◌≤◌, ◌+◌, ◌++◌, ◌^◌, length, map, replicate, IfOk};
ghost use Rattle.cilk_tree.specs.Word.{word};
ghost use Rattle.cilk_types.specs.declared.limits.TheConstants.{MAX_EVENTS};

use std::alloc::{AllocError, Global};

/// Returns the shared words at the start of a run of `events` events: the cells' opening values,
/// then `events + 1` zeros, one for the end and one for each position.
pub(crate) fn first_words(
    alloc: Global,
    opening: &[i64],
    events: usize,
) -> Result<Vec<u64>, AllocError>
    requires cells { length opening.now ≤ 2 ^ 32 }
    requires events { events ≤ MAX_EVENTS }
    ensures { IfOk result (λ v. v.items ≡ map word opening.now ++ replicate (events + 1) 0) }
{
    let count = opening.len() + events + 1;
    let mut words = Vec::with_capacity(alloc, count)?;
    for value in opening {
        words.push(value.cast_unsigned())?;
    }
    words.resize(count, 0)?;
    Ok(words)
}
