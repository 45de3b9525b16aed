//! The certificate of a program's run.

ghost use Rattle.std.specs.Prelude.{◌≡◌, ◌≤◌, length, IfOk, IfErr};
ghost use Rattle.cilk_program.specs.Sources.{source};
ghost use Rattle.cilk_serial.specs.Ran.{IsRunFault};
ghost use Rattle.cilk_tree.specs.Shape.{Shape, Spells};
ghost use Rattle.cilk_tree.specs.Tree.{tree};
ghost use Rattle.cilk_tree.specs.Hebrew.{hebrews};
ghost use Rattle.cilk_peers.specs.Peers.{class_numbers};
ghost use Rattle.cilk_cert_text.specs.declared.line.Version.TheVariants.{Two};
ghost use Rattle.cilk_cert_text.specs.Certificates.{IsCertificate};
ghost use Rattle.cilk_cert_maker.specs.Frames.{frames_of};
ghost use Rattle.cilk_cert_maker.specs.Right.{IsRight};
ghost use Rattle.cilk_cert_maker.specs.Certified.{IsCertificateOf};

use crate::column::Columns;
use crate::columns::columns;
use crate::entries::entries;
use crate::strands::strands;
use cilk_cert_text::certificate::Certificate;
use cilk_cert_text::line::Version;
use cilk_labels::{Labels, label};
use cilk_peers::class::Classes;
use cilk_peers::walk::classes;
use cilk_program::program::Program;
use cilk_serial::fault::RunFault;
use cilk_serial::run::run;
use cilk_tree::building::tree_of;
use cilk_types::input::Input;
use cilk_types::outcome::Outcome;
use cilk_types::trace::Trace;
use std::alloc::{AllocError, Global};

/// Runs a program serially and returns the right certificate of version 2 of the run.
///
/// An error is the fault that stops the serial run, with its position, or out of memory. Cost:
/// linear in the ticks; memory: linear in the events.
pub fn make(alloc: Global, program: &Program, input: &Input) -> Result<Certificate, RunFault>
    ensures right { IfOk result (λ c. IsCertificateOf (source program.now) input.now c) }
    ensures version { IfOk result (λ c. c.version ≡ Two) }
    ensures certificate { IfOk result (λ c. IsCertificate c) }
    ensures fault { IfErr result (λ e. IsRunFault (source program.now) input.now e) }
{
    let (outcome, trace) = run(alloc, program, input)?;
    Ok(certificate(alloc, &trace, &outcome)?)
}

/// Returns the certificate of version 2 of a run that is given by its events and its outcome.
///
/// The trace must be one that a run makes, with at most as many frames as the format allows.
pub fn certificate(
    alloc: Global,
    trace: &Trace,
    outcome: &Outcome,
) -> Result<Certificate, AllocError>
    requires { (s : Shape) × Spells s trace.now × (length (frames_of s) ≤ 65536) }
    ensures right { IfOk result (λ c. (s : Shape) → Spells s trace.now → IsRight s trace.now outcome.now.result c) }
    ensures version { IfOk result (λ c. c.version ≡ Two) }
    ensures certificate { IfOk result (λ c. IsCertificate c) }
{
    // A trace has few events, so few strands.
    let _count = trace.len();
    let value = result_of(outcome);
    // The labels are dropped before the entries are made, which take most of the memory.
    let (frames, strands) = {
        let Columns { frames, owners } = columns(alloc, trace)?;
        let (labels, classes) = labels(alloc, trace)?;
        let strands = strands(alloc, owners.as_slice(), &labels, &classes)?;
        (frames, strands)
    };
    let entries = entries(alloc, trace)?;
    Ok(Certificate::new(Version::Two, frames, strands, entries, value))
}

// The Hebrew numbers and the peer classes of a trace's strands.
fn labels(alloc: Global, trace: &Trace) -> Result<(Labels, Classes), AllocError>
    ensures labels { IfOk result (λ r. (s : Shape) → Spells s trace.now → r.0 ≡ hebrews (tree s) 1) }
    ensures classes { IfOk result (λ r. (s : Shape) → Spells s trace.now → r.1 ≡ class_numbers (tree s) 0 1) }
{
    let tree = tree_of(alloc, trace)?;
    let labels = label(alloc, &tree)?;
    let classes = classes(alloc, &tree)?;
    Ok((labels, classes))
}

fn result_of(outcome: &Outcome) -> i64
    ensures { result ≡ outcome.now.result }
{
    outcome.result
}
