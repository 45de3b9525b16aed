//! Laws of the courses of a run. Each law is the contract of a function that does nothing.
//!
//! `W` is what a frame can be started as, `V` a reducer's view, `M` the monoid of each reducer, and
//! `next` the program's behaviour on the input. `same` says whether two frames run one function or
//! one loop.

ghost use Rattle.std.specs.Prelude.{Bool, ℤ, List, Option};
ghost use Rattle.cilk_replay.specs.Awaited.{SerialSyncsAwaitSpawns};
ghost use Rattle.cilk_replay.specs.InputCourses.{AskedCourseIsSerial, CoursesAreOne, OwnCourse, SerialRunsAreOne};
ghost use Rattle.cilk_replay.specs.Ends.{InputsRunAlong, NamedRunsAreSerial, RunsWithinLimitsAreWhole};
ghost use Rattle.cilk_replay.specs.Frames.{AskedCoursesAreSerialRuns, ProgramsHaveOneCourse, SerialRunsAreTheirCourses};
ghost use Rattle.cilk_replay.specs.Left.{RunsAreElided};
ghost use Rattle.cilk_replay.specs.LikeRuns.{LikeRunsDepartNowhere, RunsAlongAreLike};
ghost use Rattle.cilk_replay.specs.Lists.{AskedEventOrdersAreOfAskedCourses, CoursesAreAlongPlans, InputsThatDepartNowhere};
ghost use Rattle.cilk_replay.specs.Owned.{EventsAreInTheirFrames};
ghost use Rattle.cilk_replay.specs.Points.{EventOrdersAreAskedByPositions};
ghost use Rattle.cilk_replay.specs.InputResumes.{FramesResume};
ghost use Rattle.cilk_replay.specs.EventOrders.{OwnEventOrder, EventOrdersAlongHaveValues};
ghost use Rattle.cilk_replay.specs.Worked.{WorkedEventOrders};
ghost use Rattle.cilk_replay.specs.WorkedLikeRuns.{WorkedLikeRuns};
ghost use Rattle.cilk_monoid.specs.Laws.{MonoidStructure};
ghost use Rattle.cilk_determinacy.specs.Runs.{Ask, Deed, Instance};

/// On each input a plan's run has exactly one course, the one that `course_of` gives. In the place
/// of each event of the plan it has the frame's own event, if the frame's next request is of that
/// kind, and the plan's event otherwise.
pub fn courses_are_one<W, V>()
    ensures { (M : Instance → MonoidStructure V) (next : W → List (Deed W) → Option (Ask W)) (same : W → W → Bool) → CoursesAreOne W V M next same }
{}

/// On its own input a run is its own course, and each of its events is requested.
pub fn own_course<W, V>()
    ensures { (M : Instance → MonoidStructure V) (next : W → List (Deed W) → Option (Ask W)) (same : W → W → Bool) → OwnCourse W V M next same }
{}

/// By names, a program has at most one serial run on an input.
pub fn serial_runs_are_one<W, V>()
    ensures { (M : Instance → MonoidStructure V) (next : W → List (Deed W) → Option (Ask W)) (same : W → W → Bool) → SerialRunsAreOne W V M next same }
{}

/// A course in which each event is requested is a serial run of the program on that input.
pub fn asked_course_is_serial<W, V>()
    ensures { (M : Instance → MonoidStructure V) (next : W → List (Deed W) → Option (Ask W)) (same : W → W → Bool) → AskedCourseIsSerial W V M next same }
{}

/// For the language: a run of a program has exactly one course on each input.
pub fn programs_have_one_course()
    ensures { ProgramsHaveOneCourse }
{}

/// For the language: on its own input a serial run of a program is its own course, and each event
/// is requested.
pub fn serial_runs_are_their_courses()
    ensures { SerialRunsAreTheirCourses }
{}

/// For the language: the course of a serial run on another input is a serial run on that input, if
/// each event is requested. Each frame may use all the ticks of a run for itself.
pub fn asked_courses_are_serial_runs()
    ensures { AskedCoursesAreSerialRuns }
{}

/// The event order of a course, by the numbers of the run's cells and reducers, is along the plan
/// of the run. So the laws of `cilk_tree::along` apply to it.
pub fn courses_are_along_plans<W, V>()
    ensures { (M : Instance → MonoidStructure V) (next : W → List (Deed W) → Option (Ask W)) (same : W → W → Bool) → CoursesAreAlongPlans W V M next same }
{}

/// If the event order of a course has a requested event at each position, each event of the course
/// is requested.
pub fn asked_event_orders_are_of_asked_courses<W>()
    ensures { AskedEventOrdersAreOfAskedCourses W }
{}

/// For the language, along an orderly plan of a program's serial run: on an input on which the
/// event order departs nowhere, the program has a serial run, and the values of the course are that
/// run's.
pub fn inputs_that_depart_nowhere()
    ensures { InputsThatDepartNowhere }
{}

/// For the language: on its own input the event order of a run along its plan is the plan's.
pub fn own_event_order()
    ensures { OwnEventOrder }
{}

/// For the language: on each input of words the event order of a serial run is along the run's plan
/// and has values.
pub fn event_orders_along_have_values()
    ensures { EventOrdersAlongHaveValues }
{}

/// For the language: the serial run of a program of words, by names, is a serial run in the sense
/// of courses.
pub fn named_runs_are_serial()
    ensures { NamedRunsAreSerial }
{}

/// For the language: a serial run in the sense of courses, which gives each frame all the ticks of
/// a run, is the program's serial run and ends without a fault, if it keeps the limits of a run.
pub fn runs_within_limits_are_whole()
    ensures { RunsWithinLimitsAreWhole }
{}

/// For the language: a serial run in the sense of courses has the outcome of the serial elision:
/// the same result, globals, output and reducers. It must keep the limits of events, frames and
/// cells, but its frames together may use more ticks than a run may.
pub fn runs_are_elided()
    ensures { RunsAreElided }
{}

/// For the language, along an orderly plan: on an input on which the event order departs nowhere,
/// the program runs as the course says. The course is the program's serial run and ends without a
/// fault, if its frames together use no more ticks than a run may.
pub fn inputs_run_along()
    ensures { InputsRunAlong }
{}

/// For the language: an input departs nowhere from a plan if it has a serial run, without a fault,
/// that is like the plan's: it does the same deeds but for their values.
pub fn like_runs_depart_nowhere()
    ensures { LikeRunsDepartNowhere }
{}

/// For the language, along an orderly plan: where an input departs nowhere, each serial run on it
/// without a fault is like the plan's.
pub fn runs_along_are_like()
    ensures { RunsAlongAreLike }
{}

/// For the language: in the list of a serial run's events, each event is in the frame that makes
/// it, by the frame's number.
pub fn events_are_in_their_frames()
    ensures { EventsAreInTheirFrames }
{}

/// For the language: in the plan of a serial run, the immediate predecessors of a `sync` are the
/// event right before it and `end`s of children that are spawned in its block.
pub fn syncs_await_spawns()
    ensures { SerialSyncsAwaitSpawns }
{}

/// For the language, on each input, by positions: what a frame has done so far decides whether it
/// requests the next event, and with which values. The frame's next event, a child's first event,
/// and the caller's next event after a child's `end` are at the plan's positions.
pub fn event_orders_are_asked_by_positions()
    ensures { EventOrdersAreAskedByPositions }
{}

/// For the language: right after a child, called or spawned, a frame requests its `resume`. So a
/// run that follows a plan up to there doesn't depart at a `resume`.
pub fn frames_resume()
    ensures { FramesResume }
{}

/// A worked example: a program along the plan of its run on one input. Its event order on that
/// input, and on two others, which depart.
pub fn worked_event_orders()
    ensures { WorkedEventOrders }
{}

/// A worked example: the runs of a program on two inputs make events of the same kinds. One departs
/// from the plan of the other, since it calls another function.
pub fn worked_like_runs()
    ensures { WorkedLikeRuns }
{}
