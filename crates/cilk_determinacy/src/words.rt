//! The numbers of a program and of its input are words, which their types guarantee:
//! [`Literal`](cilk_program::syntax::Literal) for a number in an expression, and
//! [`WordList`](cilk_types::word_list::WordList) for the opening values of globals and for the
//! input. With these, the theorem holds of each program and input of the code. Each function does
//! nothing: its contract is the law.

ghost use Rattle.cilk_program.specs.Sources.{source};
ghost use Rattle.cilk_determinacy.specs.Settled.{SerialRunsSettle};
ghost use Rattle.cilk_determinacy.specs.Words.{HasWords, InputsAreWords};

use cilk_program::program::Program;
use cilk_types::input::Input;

/// Each number that a program writes is a word.
pub fn programs_are_of_words(program: &Program)
    ensures { HasWords (source program.now) }
{
    program.globals.are_words();
}

/// Each input is a word, and so is their count.
pub fn inputs_are_words(input: &Input)
    ensures { InputsAreWords input.now }
{
    input.are_words();
    let _count = input.count();
}

/// The theorem for a program and an input of the code, whose numbers are words and whose names are
/// resolved. The only premises left are that the serial run ends without a fault and has no race.
pub fn serial_runs_settle(program: &Program, input: &Input)
    ensures { SerialRunsSettle (source program.now) input.now }
{
    programs_are_of_words(program);
    inputs_are_words(input);
}
