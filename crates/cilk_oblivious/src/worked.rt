//! Worked programs, computed from the definitions.

ghost use Rattle.cilk_oblivious.specs.Worked.{BranchIsNotOblivious, ProductIsOblivious};

/// A program that prints a product of hidden numbers is oblivious; one that branches on a hidden number
/// isn't.
pub fn worked_programs()
    ensures product { ProductIsOblivious }
    ensures branch { BranchIsNotOblivious }
{}
