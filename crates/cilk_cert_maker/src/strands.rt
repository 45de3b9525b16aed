// The lines of a run's strands.

ghost use Rattle.std.specs.Prelude.{◌≡◌, ◌≤◌, length, IfOk};
ghost use Rattle.std.specs.List.{AllByRecursion};
ghost use Rattle.cilk_types.specs.declared.limits.TheConstants.{MAX_EVENTS};
ghost use Rattle.cilk_cert_text.specs.Certificates.{IsStrand};
ghost use Rattle.cilk_cert_maker.specs.Right.{EachAt, IsAt};

use cilk_cert_text::line::Strand;
use cilk_labels::Labels;
use cilk_peers::class::Classes;
use cilk_types::event::{FrameNo, StrandNo};
use std::alloc::{AllocError, Global};

/// Returns the strands with these frames and labels, in order of their numbers.
pub(crate) fn strands(
    alloc: Global,
    owners: &[FrameNo],
    labels: &Labels,
    classes: &Classes,
) -> Result<Vec<Strand>, AllocError>
    requires few { length owners.now ≤ MAX_EVENTS }
    requires labels { length labels.now ≡ length owners.now }
    requires classes { length classes.now ≡ length owners.now }
    ensures many { IfOk result (λ v. length v.items ≡ length owners.now) }
    ensures owners { IfOk result (λ v. EachAt (λ k x. IsAt owners.now k x.frame) v.items) }
    ensures hebrews { IfOk result (λ v. EachAt (λ k x. IsAt labels.now k x.hebrew) v.items) }
    ensures classes { IfOk result (λ v. EachAt (λ k x. IsAt classes.now k x.class) v.items) }
    ensures small { IfOk result (λ v. AllByRecursion IsStrand v.items) }
{
    let mut strands = Vec::new(alloc);
    for (index, frame) in owners.iter().enumerate() {
        let number = index as StrandNo + 1;
        strands.push(strand(*frame, labels.hebrew(number), classes.class(number)))?;
    }
    Ok(strands)
}

fn strand(frame: FrameNo, hebrew: u32, class: StrandNo) -> Strand
    ensures fields { result ≡ record { frame = frame; hebrew = hebrew; class = class } }
    ensures small { IsStrand result }
{
    Strand {
        frame,
        hebrew,
        class,
    }
}
