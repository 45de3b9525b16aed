//! Files that are read again, for an explanation of what was judged.

ghost use Rattle.std.specs.Prelude.{◌≤◌, IfOk, IfSome, length};

use crate::Keeps;
use cilk_commands::files::{FileFault, Parts};
use cilk_findings::fault::CaseFault;
use cilk_messages::numbered::LineAt;
use cilk_messages::table::Sites;

/// The bytes of a part. Large, since a file is opened anew for each part.
const PART: usize = 32_768;

/// The goal of a search in a file.
pub trait Seeks {
    /// Takes the file's next bytes, and returns whether more are wanted.
    fn take(&mut self, part: &[u8]) -> Result<bool, CaseFault>;
}

/// Reads a file in parts from its beginning, up to its end or until no more is wanted. Returns false
/// where it can't be read any more, as a pipe that was read before.
pub fn seek<F: Keeps, S: Seeks>(
    path: &str,
    parts: Parts,
    files: &mut F,
    sought: &mut S,
) -> Result<bool, CaseFault> {
    let mut part = [0; PART];
    let mut at: u64 = 0;
    for _part in 0..u64::MAX {
        let Some(count) = next_part(path, parts, at, files, &mut part)? else {
            return Ok(false);
        };
        if count == 0 || !sought.take(&part[..count])? {
            break;
        }
        at = at.saturating_add(count as u64);
    }
    Ok(true)
}

// Reads a part from a byte on; none where the file can't be read any more.
fn next_part<F: Keeps>(
    path: &str,
    parts: Parts,
    at: u64,
    files: &mut F,
    into: &mut [u8],
) -> Result<Option<usize>, CaseFault>
    ensures { IfOk result (λ o. IfSome o (λ n. n ≤ length into.old)) }
{
    if files.failures() == u64::MAX {
        return Ok(None);
    }
    match files.part(path, parts, at, into) {
        Ok(count) => Ok(Some(count)),
        Err(FileFault::Device) => Ok(None),
        Err(FileFault::Memory) => Err(CaseFault::Memory),
    }
}

impl Seeks for Sites {
    fn take(&mut self, part: &[u8]) -> Result<bool, CaseFault> {
        self.read(part)?;
        Ok(true)
    }
}

impl Seeks for LineAt {
    fn take(&mut self, part: &[u8]) -> Result<bool, CaseFault> {
        Ok(self.read(part)?)
    }
}
