//! Compares a certificate with the columns of a run, while its text arrives.

ghost use Rattle.std.specs.Prelude.{◌≡◌, ◌<◌, ℤ, List, MatchOption, IfOk, IfErr, OnOk};
ghost use Rattle.cilk_program.specs.Syntax.{Source as Meaning};
ghost use Rattle.cilk_tree.specs.Shape.{Shape};
ghost use Rattle.cilk_tree.specs.Tree.{tree};
ghost use Rattle.cilk_tree.specs.Races.{HasNoRace};
ghost use Rattle.cilk_cert_text.specs.Certificates.{Contents};
ghost use Rattle.cilk_cert_maker.specs.Right.{IsRight};
ghost use Rattle.cilk_determinacy.specs.Events.{HasCreations};
ghost use Rattle.cilk_checker.specs.Answers.{IsUnaccepted, IsUncounted};
ghost use Rattle.cilk_checker.specs.Columns.{HasColumns};
ghost use Rattle.cilk_checker.specs.Pulls.{TakesAll, TakesUntil};
ghost use Rattle.cilk_checker.specs.Refusals.{Ended, IsClean, IsFound, IsFoundBefore};
ghost use Rattle.cilk_checker.specs.Stops.{GivesCertificate};
ghost use Rattle.cilk_checker.specs.Tallies.{AreFew, Tallied};

use crate::hearing::heard;
use crate::refusal::{Refusal, Unaccepted};
use crate::right::Right;
use crate::source::Source;
use crate::tally::Tally;
use crate::verdict::{first_difference, wrong_event};
use cilk_cells::race::first_race;
use cilk_cells::view_race::first_view_read;
use cilk_types::outcome::Outcome;
use std::alloc::{AllocError, Global};

/// Returns the refusal of a certificate whose run a fault stopped. `right` has the run's events.
pub fn stopped<S: Source>(
    alloc: Global,
    right: &Right,
    source: &mut S,
) -> Result<Refusal, Unaccepted>
    requires few { AreFew right.now }
    requires counted { S.failed source.old < 18446744073709551615 }
    ensures refused { IfOk result (λ r.
        GivesCertificate (S.remaining source.old) (λ c. IsFoundBefore right.now.trace c r)) }
    ensures unaccepted { let failed = S.failed source.old in let failed' = S.failed source.new in
        IfErr result (λ e. (p : Meaning) (inputs : List ℤ)
        → IsUnaccepted p inputs (S.remaining source.old) failed failed' e) }
    ensures uncounted { OnOk result (S.failed source.new ≡ S.failed source.old) }
    ensures unfailed { IfErr result (λ e. IsUncounted (S.failed source.old) (S.failed source.new) e) }
    ensures whole { OnOk result (TakesAll (S.remaining source.old) (S.remaining source.new)) }
    ensures part { IfErr result (λ e.
        TakesUntil (S.remaining source.old) (S.remaining source.new) (S.last source.new) e) }
    ensures lender { S.lender source.new ≡ S.lender source.old }
    ensures kept { S.kept source.new ≡ S.kept source.old }
{
    let tally = heard(alloc, right, source)?;
    Ok(found_before(&tally, right))
}

// The first wrong event up to the fault, else the refusal that names the fault's position.
fn found_before(tally: &Tally, right: &Right) -> Refusal
    ensures { (c : Contents) → Tallied right.now c tally.now → IsFoundBefore right.now.trace c result }
{
    let count = right.trace.len() as u64;
    let stops = Refusal::Stops { at: count + 1 };
    match wrong_event(tally, right) {
        None => stops,
        Some(at) => {
            if at <= count {
                Refusal::Event { at }
            } else {
                stops
            }
        }
    }
}

/// Compares a certificate with a run that ended with this outcome. `right` has the run's columns.
///
/// Ok if the certificate is right and the run has no race. Otherwise the error is the first failing
/// check.
pub fn ended<S: Source>(
    alloc: Global,
    right: &Right,
    outcome: &Outcome,
    source: &mut S,
) -> Result<(), Unaccepted>
    requires few { AreFew right.now }
    requires counted { S.failed source.old < 18446744073709551615 }
    ensures clean { OnOk result ((s : Shape) → HasColumns s right.now → HasCreations right.now.trace
        → GivesCertificate (S.remaining source.old) (IsClean s right.now.trace outcome.now.result)) }
    ensures refused { let failed = S.failed source.old in let failed' = S.failed source.new in
        IfErr result (λ e. (p : Meaning) (inputs : List ℤ) (s : Shape) → HasColumns s right.now
        → Ended p inputs s right.now.trace outcome.now → HasCreations right.now.trace
        → IsUnaccepted p inputs (S.remaining source.old) failed failed' e) }
    ensures unfailed { IfErr result (λ e. IsUncounted (S.failed source.old) (S.failed source.new) e) }
    ensures whole { OnOk result (TakesAll (S.remaining source.old) (S.remaining source.new)) }
    ensures part { IfErr result (λ e. (s : Shape) → HasColumns s right.now → HasCreations right.now.trace
        → TakesUntil (S.remaining source.old) (S.remaining source.new) (S.last source.new) e) }
    ensures uncounted { OnOk result (S.failed source.new ≡ S.failed source.old) }
    ensures lender { S.lender source.new ≡ S.lender source.old }
    ensures kept { S.kept source.new ≡ S.kept source.old }
{
    let tally = heard(alloc, right, source)?;
    if let Some(refusal) = first_found(alloc, tally, right, outcome)? {
        return Err(Unaccepted::Refusal(refusal));
    }
    Ok(())
}

// The first failing check for a run that has ended: a difference, a race, or a view-read race. The tally is
// freed before races are looked for, which takes as much memory.
fn first_found(
    alloc: Global,
    tally: Tally,
    right: &Right,
    outcome: &Outcome,
) -> Result<Option<Refusal>, AllocError>
    ensures { IfOk result (λ found. (s : Shape) (c : Contents) → HasColumns s right.now → HasCreations right.now.trace
        → Tallied right.now c tally
        → MatchOption found (IsClean s right.now.trace outcome.now.result c)
        (λ r. IsFound s right.now.trace outcome.now.result c r)) }
{
    if let Some(refusal) = first_difference(&tally, right, outcome) {
        return Ok(Some(refusal));
    }
    drop(tally);
    first_race_of(alloc, right)
}

// The first race of a run whose certificate is right: a determinacy race, else a view-read race.
fn first_race_of(alloc: Global, right: &Right) -> Result<Option<Refusal>, AllocError>
    ensures { IfOk result (λ found. (s : Shape) (value : ℤ) (c : Contents) → HasColumns s right.now
        → HasCreations right.now.trace → IsRight s right.now.trace value c
        → MatchOption found (IsClean s right.now.trace value c) (λ r. IsFound s right.now.trace value c r)) }
{
    match first_race(alloc, &right.trace, &right.labels)? {
        Some((earlier, later)) => Ok(Some(Refusal::Race { earlier, later })),
        None => first_view_race(alloc, right),
    }
}

// The first view-read race of a run without determinacy races.
fn first_view_race(alloc: Global, right: &Right) -> Result<Option<Refusal>, AllocError>
    ensures { IfOk result (λ found. (s : Shape) (value : ℤ) (c : Contents) → HasColumns s right.now
        → HasCreations right.now.trace → IsRight s right.now.trace value c
        → HasNoRace (tree s) right.now.trace
        → MatchOption found (IsClean s right.now.trace value c) (λ r. IsFound s right.now.trace value c r)) }
{
    match first_view_read(alloc, &right.trace, &right.classes)? {
        Some((created, used)) => Ok(Some(Refusal::ViewRace { created, used })),
        None => Ok(None),
    }
}
