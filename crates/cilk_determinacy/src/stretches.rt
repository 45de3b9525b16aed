//! The stretches of the serial run that pieces cover, and their views. Each function does nothing:
//! its contract is the law.
//!
//! In each law `W` is the type of what a frame can be started as, `V` that of a reducer's views,
//! `M` gives the monoid of each reducer, and `t` is a nested run.

ghost use Rattle.std.specs.Prelude.{ℤ, List, Option};
ghost use Rattle.cilk_determinacy.specs.Runs.{Cell, Instance, Ask, Deed, Run};
ghost use Rattle.cilk_determinacy.specs.Costs.{Costs};
ghost use Rattle.cilk_monoid.specs.Laws.{MonoidStructure, IsLawful};
ghost use Rattle.cilk_determinacy.specs.Monoids.{IsValue};
ghost use Rattle.cilk_determinacy.specs.Machine.{State};
ghost use Rattle.cilk_determinacy.specs.Cuts.{IsConsistent};
ghost use Rattle.cilk_determinacy.specs.Stretches.{AreStretches, PiecesAreViews};
ghost use Rattle.cilk_determinacy.specs.MachineTheorem.{IsNestedSerialRun, HasNoRaces, follows};

/// In each consistent cut of a serial run a piece covers at most one stretch of the run, without
/// gaps. The stretches are disjoint, and together they are the cut. A child's piece covers what its
/// parent's covered before, a thief's begins where the thief does, and a sync's covers its whole
/// block.
pub fn pieces_cover_stretches<W, V>()
    ensures { (M : Instance → MonoidStructure V) (C : Costs W) (w : W) (t : Run W) (opening : Cell → ℤ) (s : State W V) → IsConsistent M C w t opening s → AreStretches t s }
{}

/// If the serial run has no race, each piece has the views of its stretch alone: for each reducer,
/// the effect of the stretch's creations, updates, sets and retirements on the unit. So a sync that
/// multiplies pieces gives the view of their stretches together.
pub fn pieces_are_views_of_stretches<W, V>()
    ensures { (M : Instance → MonoidStructure V) (next : W → List (Deed W) → Option (Ask W)) (C : Costs W) (w : W) (t : Run W) (opening : Cell → ℤ) → ((i : Instance) → IsLawful (M i) IsValue) → IsNestedSerialRun W V M (follows next) C w t opening → HasNoRaces t → (s : State W V) → IsConsistent M C w t opening s → PiecesAreViews M t s }
{}
