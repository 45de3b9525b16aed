//! The line of a certificate that a refusal is about.

use cilk_checker::refusal::Refusal;
use cilk_messages::sizes::{Sizes, sizes_of};

/// Returns the line, counted from 1, if it is known. `front` is the beginning of the certificate
/// with at least its first two lines.
pub fn line_of(front: &[u8], refusal: Refusal) -> Option<u64> {
    if let Refusal::Malformed { line } | Refusal::Truncated { line } = refusal {
        return Some(u64::from(line));
    }
    let Sizes {
        events,
        frames,
        strands,
    } = sizes_of(front)?;
    let ahead = frames.saturating_add(2);
    match refusal {
        Refusal::Frame { frame } => Some(frame.saturating_add(2)),
        Refusal::Strand { strand } | Refusal::Hebrew { strand } | Refusal::Class { strand } => Some(
            ahead.saturating_add(strand),
        ),
        Refusal::Event { at } | Refusal::ReadSource { at } => {
            Some(ahead.saturating_add(strands).saturating_add(at))
        }
        Refusal::Result => Some(
            ahead
                .saturating_add(strands)
                .saturating_add(events)
                .saturating_add(1),
        ),
        _ => None,
    }
}
