//! The frames of a run, and the frame of each strand.

use cilk_cert_text::line::Frame;
use cilk_types::event::FrameNo;

/// The frames of a run, and the frame of each strand.
///
/// Frames and strands are numbered from 1; number k is at index k - 1.
#[derive(Drop)]
pub struct Columns {
    pub frames: Vec<Frame>,
    pub owners: Vec<FrameNo>,
}
