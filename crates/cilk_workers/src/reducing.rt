//! The events of reducers and of the ordered output.

ghost use Rattle.std.specs.Prelude.{◌≡◌};
ghost use Rattle.cilk_shared.specs.Reducers.{kind_in};
ghost use Rattle.cilk_tree.specs.declared.kind.Kind.TheVariants as kinds;
ghost use Rattle.cilk_workers.specs.Turns.{HasMore, IsDue, Turned};

use crate::asking::number_asked;
use crate::shared::Shared;
use crate::work::{Turn, Work};
use cilk_frames::cursor::Answer;
use cilk_monoid::kind::MonoidKind;
use cilk_shared::reducers::Reducers;
use cilk_types::event::Instance;
use std::alloc::Global;

// The monoid of a reducer; that of the output is the list.
fn kind_in(reducers: &Reducers, instance: Instance) -> MonoidKind
    ensures { result ≡ kind_in reducers.now instance }
{
    if instance.frame == 0 && instance.place == 0 {
        return MonoidKind::Append;
    }
    let Some(own) = reducers
        .frames
        .as_slice()
        .get(instance.frame.saturating_sub(1) as usize)
    else {
        return MonoidKind::Append;
    };
    match own
        .kinds
        .as_slice()
        .get(instance.place.saturating_sub(1) as usize)
    {
        Some(kind) => *kind,
        None => MonoidKind::Append,
    }
}

/// The next event creates a reducer.
pub(crate) fn created(
    alloc: Global,
    shared: &Shared<'_>,
    work: &mut Work,
    instance: Instance,
) -> Turn
    requires due { IsDue shared.now work.old (kinds.Create instance) }
    requires more { HasMore shared.now work.old }
    ensures { Turned shared.now work.old.piece work.new result }
{
    shared.laws();
    let kind = kind_in(shared.reducers(), instance);
    let Ok(()) = work.piece.create(alloc, shared.yard(), instance, kind) else {
        return Turn::Stopped;
    };
    work.chain.answer(shared.replay(), Answer::Done);
    Turn::Goes
}

/// The next event updates a reducer.
pub(crate) fn updated(
    alloc: Global,
    shared: &Shared<'_>,
    work: &mut Work,
    instance: Instance,
) -> Turn
    requires due { IsDue shared.now work.old (kinds.Update instance) }
    requires more { HasMore shared.now work.old }
    ensures { Turned shared.now work.old.piece work.new result }
{
    shared.laws();
    let number = number_asked(&work.chain);
    let kind = kind_in(shared.reducers(), instance);
    let Ok(()) = work
        .piece
        .update(alloc, shared.yard(), instance, kind, number)
    else {
        return Turn::Stopped;
    };
    work.chain.answer(shared.replay(), Answer::Done);
    Turn::Goes
}

/// The next event sets a reducer.
pub(crate) fn set(alloc: Global, shared: &Shared<'_>, work: &mut Work, instance: Instance) -> Turn
    requires due { IsDue shared.now work.old (kinds.Set instance) }
    requires more { HasMore shared.now work.old }
    ensures { Turned shared.now work.old.piece work.new result }
{
    shared.laws();
    let number = number_asked(&work.chain);
    let kind = kind_in(shared.reducers(), instance);
    let Ok(()) = work.piece.set(alloc, shared.yard(), instance, kind, number) else {
        return Turn::Stopped;
    };
    work.chain.answer(shared.replay(), Answer::Done);
    Turn::Goes
}

/// The next event reads a reducer: the frame is answered the number of its view.
pub(crate) fn valued(
    alloc: Global,
    shared: &Shared<'_>,
    work: &mut Work,
    instance: Instance,
) -> Turn
    requires due { IsDue shared.now work.old (kinds.Value instance) }
    requires more { HasMore shared.now work.old }
    ensures { Turned shared.now work.old.piece work.new result }
{
    shared.laws();
    work.piece.segment().follows(shared.yard());
    let kind = kind_in(shared.reducers(), instance);
    let Ok(number) = work.piece.value(alloc, shared.yard(), instance, kind) else {
        return Turn::Stopped;
    };
    work.chain.answer(shared.replay(), Answer::Value(number));
    Turn::Goes
}

/// The next event prints a number.
pub(crate) fn printed(alloc: Global, shared: &Shared<'_>, work: &mut Work) -> Turn
    requires due { IsDue shared.now work.old kinds.Print }
    requires more { HasMore shared.now work.old }
    ensures { Turned shared.now work.old.piece work.new result }
{
    shared.laws();
    let number = number_asked(&work.chain);
    let Ok(()) = work.piece.print(alloc, shared.yard(), number) else {
        return Turn::Stopped;
    };
    work.chain.answer(shared.replay(), Answer::Done);
    Turn::Goes
}
