//! Laws of resolution, and the limits as numbers. Each function does nothing; its contract is the
//! law.

ghost use Rattle.std.specs.Prelude.{◌≡◌, ◌↔◌, ℕ, [], IsTrue};
ghost use Rattle.cilk_syntax.specs.declared.tree.Tree.{Tree};
ghost use Rattle.cilk_program.specs.Syntax.{Source};
ghost use Rattle.cilk_program.specs.WellNamed.{is_well_named};
ghost use Rattle.cilk_names.specs.Misnamings.{IsNameFault, faults_of};
ghost use Rattle.cilk_names.specs.Resolution.{Resolves};
ghost use Rattle.cilk_names.specs.declared.fault.NameFault.TheVariants as faults;
ghost use Rattle.cilk_names.specs.declared.limits.TheConstants.{MAX_CELLS, MAX_FUNCTIONS, MAX_GLOBALS, MAX_PARAMETERS, MAX_REDUCERS};
ghost use Rattle.cilk_names.specs.declared.kind.NameErrorKind.{NameErrorKind};

/// A tree resolves to at most one program.
pub fn one_program()
    ensures { (t : Tree) (s s' : Source) → Resolves t s → Resolves t s' → s ≡ s' }
{}

/// A tree resolves to a program if and only if it has no fault.
pub fn resolves_where_right()
    ensures { (t : Tree) → ((s : Source) × Resolves t s) ↔ (faults_of t ≡ []) }
{}

/// The program of a tree is well named: each name refers to something that exists, within the
/// limits of a program.
pub fn resolves_well_named()
    ensures { (t : Tree) (s : Source) → Resolves t s → IsTrue (is_well_named s) }
{}

/// A tree has at most one first fault, and none if it resolves.
#[tactic(auto, using(crate::proofs::OneFault::one_fault, crate::proofs::OneFault::none_where_resolved))]
pub fn one_fault()
    ensures one { (t : Tree) (n m : NameErrorKind) (p q : ℕ) → IsNameFault (faults.At n p) t → IsNameFault (faults.At m q) t
        → (n ≡ m) × (p ≡ q) }
    ensures apart { (t : Tree) (s : Source) (n : NameErrorKind) (p : ℕ) → Resolves t s
        → IsNameFault (faults.At n p) t → ⊥ }
{}

/// The limits of a program as numbers, for contracts that name the constants.
pub fn limits_are()
    ensures functions { MAX_FUNCTIONS ≡ 1024 }
    ensures parameters { MAX_PARAMETERS ≡ 16 }
    ensures cells { MAX_CELLS ≡ 256 }
    ensures reducers { MAX_REDUCERS ≡ 64 }
    ensures globals { MAX_GLOBALS ≡ 1000000 }
{}
