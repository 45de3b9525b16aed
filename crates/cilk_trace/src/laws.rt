//! Laws of traces. Each is a function that does nothing: its contract is the law.

ghost use Rattle.cilk_trace.specs.Marks.{TracesHaveShapes};
ghost use Rattle.cilk_trace.specs.Segments.{SegmentsDecide};
ghost use Rattle.cilk_trace.specs.Structures.{KeepsMarks, RefusesNoTrace};

/// The marks of a trace whose frames nest are those of a run of some shape.
pub fn traces_have_shapes()
    ensures { TracesHaveShapes }
{}

/// The structure of a whole trace has its marks, and its frames nest.
pub fn structures_keep_marks()
    ensures { KeepsMarks }
{}

/// No trace begins with lines that hold a refused one.
pub fn no_trace_is_refused()
    ensures { RefusesNoTrace }
{}

/// Traces with the same other lines that access and write the same cells between these have the same
/// verdict, so a recorder may leave out repeats, and join, split and reorder accesses there.
pub fn segments_decide()
    ensures { SegmentsDecide }
{}
