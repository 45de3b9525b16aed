//! The law of program texts. It is a function that does nothing: its contract is the law.

ghost use Rattle.std.specs.Prelude.{ℕ, List};
ghost use Rattle.cilk_checker.specs.OneMeaning.{HasOneMeaning};

/// A program text means at most one program, or has at most one first fault, and not both.
#[tactic(auto, using(crate::proofs::OneMeaning::one_meaning))]
pub fn text_has_one_meaning()
    ensures { (text : List ℕ) → HasOneMeaning text }
{}
