//! Laws of the columns of a certificate. Each is a function that does nothing: its contract is the
//! law.

ghost use Rattle.std.specs.Prelude.{ℤ, List};
ghost use Rattle.cilk_types.specs.declared.event.Event.{Event};
ghost use Rattle.cilk_tree.specs.Shape.{Shape, Spells};
ghost use Rattle.cilk_cert_maker.specs.ListingLaws.{ColumnsAreCounted, HasOneCertificate};
ghost use Rattle.cilk_cert_maker.specs.Nesting.{FramesAreInvoked, SpawnRaceFrames};

/// The columns of a run have the right lengths.
///
/// There is a frame for the root and one for each frame inside it. There is a strand for each leaf
/// of the run's tree. Neither are more than the run's events.
pub fn columns_are_counted()
    ensures { (s : Shape) (es : List Event) → Spells s es → ColumnsAreCounted s es }
{}

/// The columns follow from the list of events alone, without the run's tree.
///
/// There is one frame for each `begin`. Its parent is the frame of the event before, and its
/// ordinal counts the calls and spawns of the parent up to there. Each event is in the frame of its
/// strand. The clause `worked` computes a small run.
pub fn frames_are_invoked()
    ensures invoked { (s : Shape) (es : List Event) → Spells s es → FramesAreInvoked s es }
    ensures worked { SpawnRaceFrames }
{}

/// A list of events has at most one right certificate of each version, and so one text of each.
///
/// In version 1 this requires that each reducer is created once, as it is in a serial run.
pub fn right_certificates_are_one()
    ensures { (s : Shape) (es : List Event) (value : ℤ) → HasOneCertificate s es value }
{}
