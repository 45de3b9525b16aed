//! Halves the turns of a parallel loop, until a frame has one.

ghost use Rattle.std.specs.Prelude.{◌≡◌};
ghost use Rattle.cilk_program.specs.Behaviour.{middle};

pub use cilk_lower::layout::{has_one, is_single};
use cilk_program::ask::LoopPart;

/// Returns the first half of the turns, for a child of their frame.
#[inline(always)]
pub fn first_half(part: LoopPart) -> LoopPart
    ensures { result ≡ record { number = part.number; up = 1; low = part.low; high = middle part.low part.high } }
{
    LoopPart {
        number: part.number,
        up: 1,
        low: part.low,
        high: middle(part.low, part.high),
    }
}

/// Returns the second half of the turns, for a child of their frame.
#[inline(always)]
pub fn second_half(part: LoopPart) -> LoopPart
    ensures { result ≡ record { number = part.number; up = 1; low = middle part.low part.high; high = part.high } }
{
    LoopPart {
        number: part.number,
        up: 1,
        low: middle(part.low, part.high),
        high: part.high,
    }
}

// The bound at which the turns are halved. The distance of the bounds may exceed a word. Not inlined,
// since its arithmetic would be done at each entry of the loop over a frame's instructions. It takes
// and returns words alone: other values would be kept in memory, which is cleared at each entry.
#[inline(never)]
fn middle(low: i64, high: i64) -> i64
    ensures { result ≡ middle low high }
{
    let low = i128::from(low);
    let half = (i128::from(high) - low) / 2;
    (low + half) as i64
}
