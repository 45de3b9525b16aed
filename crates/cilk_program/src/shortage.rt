//! How a frame's requests depend on its ticks.

ghost use Rattle.std.specs.Prelude.{ℤ, List};
ghost use Rattle.cilk_program.specs.Syntax.{Source};
ghost use Rattle.cilk_program.specs.Ticks.{TicksRunShort};

/// If a frame runs out of ticks, but reaches another request with n more, then fewer than n ticks
/// are left at that request. Without ticks that it doesn't use, a frame makes the same request. So
/// the ticks that are left decide whether the next request is fault 204.
pub fn ticks_run_short()
    ensures { (p : Source) (inputs : List ℤ) → TicksRunShort p inputs }
{}
