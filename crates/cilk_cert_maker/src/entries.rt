// Lists the events of a run as entries of a certificate.

ghost use Rattle.std.specs.Prelude.{◌≡◌, ◌≤◌, length, IfOk};
ghost use Rattle.std.specs.List.{AllByRecursion};
ghost use Rattle.cilk_types.specs.declared.limits.TheConstants.{MAX_EVENTS};
ghost use Rattle.cilk_cert_text.specs.declared.line.Version.TheVariants.{Two};
ghost use Rattle.cilk_cert_text.specs.Certificates.{IsEntry};
ghost use Rattle.cilk_cert_maker.specs.Listed.{ListsEvent, HasSource};
ghost use Rattle.cilk_cert_maker.specs.Right.{EachAt};

use crate::listed_entries::entry;
use crate::sources::{LastWrites, cells_written};
use cilk_cert_text::line::Entry;
use cilk_types::event::Pos;
use cilk_types::trace::Trace;
use std::alloc::{AllocError, Global};

/// Returns the entries of version 2 that list a trace, each read with its source.
pub(crate) fn entries(alloc: Global, trace: &Trace) -> Result<Vec<Entry>, AllocError>
    ensures many { IfOk result (λ v. length v.items ≡ length trace.now) }
    ensures events { IfOk result (λ v. EachAt (ListsEvent trace.now) v.items) }
    ensures sources { IfOk result (λ v. EachAt (HasSource trace.now) v.items) }
    ensures few { IfOk result (λ v. length v.items ≤ MAX_EVENTS) }
    ensures small { IfOk result (λ v. AllByRecursion (IsEntry Two) v.items) }
{
    let events = trace.as_slice();
    let mut writes = LastWrites::new(alloc, cells_written(events))?;
    let mut entries = Vec::with_capacity(alloc, events.len())?;
    for (index, event) in events.iter().enumerate() {
        entries.push_reserved(entry(event, &writes));
        writes.meet(event, index as Pos + 1);
    }
    Ok(entries)
}
