//! Laws of the machine, each the contract of an empty function.

ghost use Rattle.std.specs.Prelude.{◌≡◌, ◌<◌, ◌∷◌, ℕ, ℤ, List, Option, Some, length};
ghost use Rattle.cilk_lower.specs.Machine.{exec, going, move, Next, Reaches, Setting};
ghost use Rattle.cilk_lower.specs.Strands.{IsClear};
ghost use Rattle.cilk_lower.specs.declared.code.Instr.{Instr};
ghost use Rattle.cilk_program.specs.Behaviour.{OpenAsk};
ghost use Rattle.cilk_program.specs.declared.syntax.Operator.{Operator};

/// The machine reaches at most one request, whatever the bound on its instructions. So code has at
/// most one behaviour.
#[tactic(auto, using(crate::proofs::Once::one_ask))]
pub fn machine_asks_once()
    ensures { (m : Setting) (n k place : ℕ) (stack : List ℤ) (held : ℤ) (answers : List ℤ) (left : ℕ) (a b : OpenAsk) →
        exec m n place stack held answers left ≡ Reaches a →
        exec m k place stack held answers left ≡ Reaches b →
        a ≡ b }
{}

/// The operand stack is empty at a spawn, a call or a sync. So a frame that continues on another
/// worker takes no operands with it.
#[tactic(auto, using(crate::proofs::Clear::is_clear))]
pub fn no_operand_waits()
    ensures { (m : Setting) (i : Option Instr) (place : ℕ) (stack : List ℤ) (held : ℤ) (left : ℕ) →
        IsClear (move m i place stack held left) }
{}

/// An `ApplyNumber` does what a `Push` of the number and then an `Apply` do, whatever the ticks left
/// and whatever comes next.
#[tactic(auto, using(crate::proofs::Numbers::as_two))]
pub fn number_is_applied_at_once()
    ensures { (m : Setting) (op : Operator) (n x : ℤ) (place : ℕ) (stack : List ℤ) (held : ℤ) (answers : List ℤ) (next : Next) (left : ℕ) →
        length (x ∷ stack) < m.room →
        going m.room (move m (Some (Instr.Push n)) place (x ∷ stack) held left) answers
        (λ place stack held answers left. going m.room (move m (Some (Instr.Apply op)) place stack held left) answers next)
        ≡ going m.room (move m (Some (Instr.ApplyNumber op n)) place (x ∷ stack) held left) answers next }
{}
