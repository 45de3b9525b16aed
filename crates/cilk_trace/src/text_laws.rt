//! Laws of traces' texts. Each is a function that does nothing: its contract is the law.

ghost use Rattle.cilk_trace.specs.Encoding.{HasBinaryForms};
ghost use Rattle.cilk_trace.specs.Numbers.{ReadsNumbers};
ghost use Rattle.cilk_trace.specs.Texts.{ReadsTraces};

/// A text is read as these lines without a fault exactly where it is that of a trace with these
/// lines, by the grammar.
pub fn reads_traces()
    ensures { ReadsTraces }
{}

/// A number of the binary form is read from its spelling in LEB128.
pub fn reads_numbers()
    ensures { ReadsNumbers }
{}

/// The lines of a trace have a binary form, the one that an encoder makes, and it is read as these
/// lines.
pub fn has_binary_forms()
    ensures { HasBinaryForms }
{}
