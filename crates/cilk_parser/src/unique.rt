//! Laws of the grammar and of texts. Each function does nothing; its contract is the law.

ghost use Rattle.std.specs.Prelude.{ℕ, List};
ghost use Rattle.cilk_syntax.specs.declared.token.Token.{Token};
ghost use Rattle.cilk_parser.specs.Answers.{HasOneTree, StopsOnce, IsCutOnce, HasOneAnswer, HasOneInput};

/// A list of tokens spells at most one program. So an `else` belongs to one `if`, operators are
/// grouped in one way, and `x = f(1);` is a call and not an expression.
#[tactic(auto, using(crate::proofs::UniqueItems::one_program))]
pub fn grammar_is_unambiguous()
    ensures { (ts : List Token) → HasOneTree ts }
{}

/// A list of tokens is refused, or is past a limit, at one place at most. It is so nowhere if it
/// spells a program within the limits.
#[tactic(auto, using(crate::proofs::Prefixes::stops_once))]
pub fn reading_stops_once()
    ensures { (ts : List Token) → StopsOnce ts }
{}

/// A text has at most one list of tokens or one first byte where no token fits, and not both.
pub fn text_is_cut_once()
    ensures { (bytes : List ℕ) → IsCutOnce bytes }
{}

/// A program text has at most one program or one first fault, and not both.
pub fn text_has_one_answer()
    ensures { (bytes : List ℕ) → HasOneAnswer bytes }
{}

/// An input text has at most one list of numbers or one first fault, and not both.
#[tactic(auto, using(crate::proofs::UniqueInputs::one_input))]
pub fn input_has_one_answer()
    ensures { (bytes : List ℕ) → HasOneInput bytes }
{}
