//! Laws of scripts: their limits, that a text has one meaning, and that this is the grammar's. Each
//! law is the contract of a function that does nothing.

ghost use Rattle.std.specs.Prelude.{◌≡◌};
ghost use Rattle.cilk_parser.specs.OneScript.{ScriptIsOne};
ghost use Rattle.cilk_parser.specs.ScriptGrammar.{GrammarsAgree};
ghost use Rattle.cilk_parser.specs.declared.script_choices.TheConstants.{MAX_CHOICES};
ghost use Rattle.cilk_parser.specs.declared.script.TheConstants.{MAX_NUMBER, MAX_SCRIPT};

/// The maximum number of choices, the greatest number and the maximum size in bytes.
pub fn limits_are()
    ensures choices { MAX_CHOICES ≡ 16000000 }
    ensures number { MAX_NUMBER ≡ 1000000 }
    ensures size { MAX_SCRIPT ≡ 1048576 }
{}

/// A text is a script of exactly one list of steps, or it fails at exactly one line.
#[tactic(auto, using(crate::proofs::OneScript::script_is_one))]
pub fn script_is_one()
    ensures { ScriptIsOne }
{}

/// A text is a script of the steps that its lines spell by the grammar, and it fails at its first
/// line that is none of the grammar's or has the first byte too many.
#[tactic(auto, using(crate::proofs::ScriptGrammar::grammars_agree))]
pub fn grammars_agree()
    ensures { GrammarsAgree }
{}
