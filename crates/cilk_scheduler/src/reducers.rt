//! Events on reducers and the output.

ghost use Rattle.std.specs.Prelude.{◌≡◌, ◌<◌, ℕ, Some, length, IfOk, OnErr, OnOk};
ghost use Rattle.cilk_types.specs.declared.event.Event.TheVariants as events;
ghost use Rattle.cilk_types.specs.declared.event.Instance.{Instance};
ghost use Rattle.cilk_monoid.specs.Kinds.{structure_of};
ghost use Rattle.cilk_monoid.specs.declared.kind.MonoidKind.{MonoidKind};
ghost use Rattle.cilk_hypermap.specs.Hypermap.{ChangesIn, value_in};
ghost use Rattle.cilk_hypermap.specs.Views.{output};
ghost use Rattle.cilk_program.specs.Scopes.{Scope, instance_in};
ghost use Rattle.cilk_program.specs.SerialRun.{global_reducer};
ghost use Rattle.cilk_frames.specs.Sight.{number_in};
ghost use Rattle.cilk_frames.specs.declared.cursor.Answer.TheVariants as answers;
ghost use Rattle.cilk_scheduler.specs.Events.{SeesAt};
ghost use Rattle.cilk_scheduler.specs.FrameStates.{answered, changed};

use crate::frame_state::FrameState;
use crate::frame_states::answer;
use cilk_frames::activation::Activation;
use cilk_frames::cursor::Answer;
use cilk_frames::places::instance;
use cilk_hypermap::hypermap::Hypermap;
use cilk_monoid::kind::MonoidKind;
use cilk_program::syntax::ReducerPlace;
use cilk_types::event::{Event, Instance};
use std::alloc::{AllocError, Global};

/// Returns the reducer that a place means to a frame.
pub fn instance_at(frames: &[Activation<FrameState>], frame: usize, place: ReducerPlace) -> Instance
    requires here { frame < length frames.now }
    requires sees { (scope : Scope ℕ Instance) × SeesAt frames.now frame scope }
    requires small { number_in place < 65536 }
    ensures { (scope : Scope ℕ Instance) → SeesAt frames.now frame scope → result ≡ instance_in global_reducer scope place }
{
    instance(frames, &frames[frame], place)
}

/// Creates a reducer, whose view is its monoid's unit.
pub fn create(
    alloc: Global,
    frames: &mut Vec<Activation<FrameState>>,
    views: &mut Hypermap,
    frame: usize,
    instance: Instance,
    kind: MonoidKind,
) -> Result<Event, AllocError>
    requires { frame < length frames.old.items }
    ensures event { IfOk result (λ e. e ≡ events.Create instance) }
    ensures views { OnOk result (ChangesIn views.old views.new kind instance (Some (structure_of kind).unit)) }
    ensures frames { OnOk result (frames.new.items ≡ changed (answered answers.Done) frames.old.items frame) }
    ensures same { OnErr result (frames.new.items ≡ frames.old.items) }
{
    views.create(alloc, instance, kind)?;
    answer(frames, frame, Answer::Done);
    Ok(Event::Create { instance })
}

/// Updates a reducer: multiplies its view from the right by the view of a number.
pub fn update(
    alloc: Global,
    frames: &mut Vec<Activation<FrameState>>,
    views: &mut Hypermap,
    frame: usize,
    instance: Instance,
    kind: MonoidKind,
    value: i64,
) -> Result<Event, AllocError>
    requires { frame < length frames.old.items }
    ensures event { IfOk result (λ e. e ≡ events.Update instance value) }
    ensures views { OnOk result (ChangesIn views.old views.new kind instance (Some ((structure_of kind).combine (value_in views.old kind instance) ((structure_of kind).single value)))) }
    ensures frames { OnOk result (frames.new.items ≡ changed (answered answers.Done) frames.old.items frame) }
    ensures same { OnErr result (frames.new.items ≡ frames.old.items) }
{
    views.update(alloc, instance, kind, value)?;
    answer(frames, frame, Answer::Done);
    Ok(Event::Update { instance, value })
}

/// Sets a reducer: its view becomes that of a number alone.
pub fn set(
    alloc: Global,
    frames: &mut Vec<Activation<FrameState>>,
    views: &mut Hypermap,
    frame: usize,
    instance: Instance,
    kind: MonoidKind,
    value: i64,
) -> Result<Event, AllocError>
    requires { frame < length frames.old.items }
    ensures event { IfOk result (λ e. e ≡ events.Set instance value) }
    ensures views { OnOk result (ChangesIn views.old views.new kind instance (Some ((structure_of kind).single value))) }
    ensures frames { OnOk result (frames.new.items ≡ changed (answered answers.Done) frames.old.items frame) }
    ensures same { OnErr result (frames.new.items ≡ frames.old.items) }
{
    views.set(alloc, instance, kind, value)?;
    answer(frames, frame, Answer::Done);
    Ok(Event::Set { instance, value })
}

/// Reads the number of a reducer's view. A view that is absent becomes the unit.
pub fn value(
    alloc: Global,
    frames: &mut Vec<Activation<FrameState>>,
    views: &mut Hypermap,
    frame: usize,
    instance: Instance,
    kind: MonoidKind,
) -> Result<Event, AllocError>
    requires { frame < length frames.old.items }
    ensures event { IfOk result (λ e. e ≡ events.Value instance ((structure_of kind).number (value_in views.old kind instance))) }
    ensures views { OnOk result (ChangesIn views.old views.new kind instance (Some (value_in views.old kind instance))) }
    ensures frames { OnOk result (frames.new.items ≡ changed (answered (answers.Value ((structure_of kind).number (value_in views.old kind instance)))) frames.old.items frame) }
    ensures same { OnErr result (frames.new.items ≡ frames.old.items) }
{
    let value = views.value(alloc, instance, kind)?;
    answer(frames, frame, Answer::Value(value));
    Ok(Event::Value { instance, value })
}

/// Prints a number: appends it to the worker's view of the output.
pub fn print(
    alloc: Global,
    frames: &mut Vec<Activation<FrameState>>,
    views: &mut Hypermap,
    frame: usize,
    value: i64,
) -> Result<Event, AllocError>
    requires { frame < length frames.old.items }
    ensures event { IfOk result (λ e. e ≡ events.Print value) }
    ensures views { OnOk result (ChangesIn views.old views.new MonoidKind.Append output (Some ((structure_of MonoidKind.Append).combine (value_in views.old MonoidKind.Append output) ((structure_of MonoidKind.Append).single value)))) }
    ensures frames { OnOk result (frames.new.items ≡ changed (answered answers.Done) frames.old.items frame) }
    ensures same { OnErr result (frames.new.items ≡ frames.old.items) }
{
    views.print(alloc, value)?;
    answer(frames, frame, Answer::Done);
    Ok(Event::Print { value })
}
