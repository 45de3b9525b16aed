//! Laws of words, and the limits as numbers. Each function does nothing; its contract is the law.

ghost use Rattle.std.specs.Prelude.{◌≡◌, ℤ};
ghost use Rattle.cilk_types.specs.Word.{HasOneWord, DividesExactly, DividesWithin};
ghost use Rattle.cilk_types.specs.declared.limits.TheConstants.{MAX_TEXT, MAX_INPUTS, MAX_EVENTS, MAX_TICKS, MAX_FRAMES, MAX_CELLS, MAX_WORKERS, MAX_HELPERS};

/// Words are the integers modulo 2^64.
pub fn words_are_modulo()
    ensures { (z : ℤ) → HasOneWord z }
{}

/// A quotient is rounded toward zero and then wrapped to a word. The remainder has the sign of the
/// dividend.
pub fn division_is_exact()
    ensures { (a : ℤ) → DividesExactly a }
{}

/// The quotient of two words is exact, except for the least word divided by -1, which wraps.
pub fn only_one_quotient_wraps()
    ensures { (a b : ℤ) → DividesWithin a b }
{}

/// The limits of texts, inputs and runs, of workers and of helpers as numbers, for contracts that name the constants.
pub fn limits_are()
    ensures text { MAX_TEXT ≡ 262144 }
    ensures inputs { MAX_INPUTS ≡ 65536 }
    ensures events { MAX_EVENTS ≡ 1000000 }
    ensures ticks { MAX_TICKS ≡ 16000000 }
    ensures frames { MAX_FRAMES ≡ 65536 }
    ensures cells { MAX_CELLS ≡ 1048576 }
    ensures workers { MAX_WORKERS ≡ 64 }
    ensures helpers { MAX_HELPERS ≡ 16 }
{}
