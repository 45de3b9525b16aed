//! The frames that workers hold.

ghost use Rattle.std.specs.Prelude.{◌≡◌, ◌+◌, ◌<◌, None, Some, length, slice_get, MatchOption};
ghost use Rattle.cilk_scheduler.specs.Workers.{held_by, is_idle, offers};

use crate::frame_state::Worker;

/// Returns the index of the frame that a worker holds. `None` if it is idle or there is no such
/// worker. Workers count from 1.
pub fn held_by(workers: &[Worker], worker: u32) -> Option<u32>
    ensures { result ≡ held_by workers.now worker }
{
    if worker == 0 {
        return None;
    }
    match workers.get(worker as usize - 1) {
        Some(worker) => worker.frame,
        None => None,
    }
}

/// Whether a worker exists and holds no frame. Workers count from 1.
pub fn is_idle(workers: &[Worker], worker: u32) -> bool
    ensures { result ≡ is_idle workers.now worker }
{
    if worker == 0 {
        return false;
    }
    match workers.get(worker as usize - 1) {
        Some(worker) => worker.frame.is_none(),
        None => false,
    }
}
