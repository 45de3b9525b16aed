//! The values of cells, from their words.

ghost use Rattle.std.specs.Prelude.{◌≡◌, ℕ, ◌<◌, ◌≤◌, slice_index, slice_index_or, pos, vec_len, vec_capacity};
ghost use Rattle.std.specs.Int.{cast_signed, w64};
ghost use Rattle.std.specs.Slots.{slots_items, slots_len, IsFull};

use atomic_table::Closed;
use std::alloc::Global;

/// Returns the values of the first words, one for each cell.
pub(crate) fn last_values(
    closed: &Closed<(), Global>,
    cells: usize,
    mut values: Vec<i64>,
) -> Vec<i64>
    requires room { (vec_len values ≡ 0) × (cells ≤ vec_capacity values) }
    requires words { (cells ≤ slots_len closed.now.words) × IsFull closed.now.words }
    ensures count { vec_len result ≡ cells }
    ensures each { (k : ℕ) → k < cells → slice_index_or result.items k (pos 0) ≡ cast_signed w64 (slice_index (slots_items closed.now.words) k) }
{
    for cell in 0..cells {
        let word = closed.word(cell);
        values.push_reserved(word.cast_signed());
    }
    values
}
