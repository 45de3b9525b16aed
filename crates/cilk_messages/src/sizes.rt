//! The sizes of a run, as a certificate's second line has them.

use crate::asked::number_of;

/// The numbers of events, frames and strands in a certificate's second line.
#[derive(Clone, Copy)]
pub struct Sizes {
    pub events: u64,
    pub frames: u64,
    pub strands: u64,
}

/// Returns the sizes that the beginning of a certificate has, with at least its first two lines.
pub fn sizes_of(front: &[u8]) -> Option<Sizes> {
    let line = str::from_utf8(front).ok()?.lines().nth(1)?;
    let mut sizes = [0; 4];
    let mut words = line.split_whitespace();
    for place in 0..4 {
        let word = words.next()?;
        sizes[place] = if place > 0 {
            number_of(word.as_bytes())?
        } else {
            0
        };
    }
    let [_, events, frames, strands] = sizes;
    Some(Sizes {
        events,
        frames,
        strands,
    })
}
