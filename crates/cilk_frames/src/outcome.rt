//! The outcome of a run that has ended.

ghost use Rattle.std.specs.Prelude.{◌≡◌, ◌+◌, ◌≤◌, length, IfOk, OnOk};
ghost use Rattle.std.specs.Option.{option_map};
ghost use Rattle.cilk_types.specs.declared.event.Instance.{Instance};
ghost use Rattle.cilk_monoid.specs.declared.kind.MonoidKind.{MonoidKind};
ghost use Rattle.cilk_monoid.specs.Kinds.{final_of};
ghost use Rattle.cilk_hypermap.specs.Hypermap.{value_in, view_in};
ghost use Rattle.cilk_hypermap.specs.Views.{output};
ghost use Rattle.cilk_frames.specs.Leaving.{KeepsOthers, finals_of, numbers_in, outcome_of};

use cilk_hypermap::hypermap::Hypermap;
use cilk_lower::layout::Layout;
use cilk_monoid::kind::MonoidKind;
use cilk_types::event::Instance;
use cilk_types::outcome::{Final, Outcome};
use cilk_types::sequence::Sequence;
use std::alloc::{AllocError, Global};

/// Returns the outcome of a run, given its final cells and views. The printed numbers and the
/// global reducers' values are taken out of `views`.
pub fn outcome(
    alloc: Global,
    layout: &Layout,
    cells: &[i64],
    views: &mut Hypermap,
    value: i64,
) -> Result<Outcome, AllocError>
    requires globals { length layout.now.openings ≤ length cells.now }
    requires few { length layout.now.reducers ≤ 64 }
    ensures { IfOk result (λ o. o ≡ outcome_of layout.now cells.now views.old value) }
{
    let globals = Vec::from_slice(alloc, &cells[..layout.openings.len()])?;
    let output = printed(alloc, views);
    let reducers = finals(alloc, layout.reducers.as_slice(), views)?;
    Ok(Outcome {
        result: value,
        globals: Sequence::new(globals),
        output,
        reducers: Sequence::new(reducers),
    })
}

// The printed numbers.
fn printed(alloc: Global, views: &mut Hypermap) -> Sequence<i64>
    ensures value { result ≡ numbers_in (option_map final_of (view_in views.old MonoidKind.Append output)) }
    ensures others { KeepsOthers views.old views.new output }
{
    match views.take(Instance::OUTPUT, MonoidKind::Append) {
        Some(Final::List(list)) => list,
        Some(Final::Number(_)) => Sequence::new(Vec::new(alloc)),
        None => Sequence::new(Vec::new(alloc)),
    }
}

/// Returns the last values of the global reducers with these monoids, in order. They are taken out of
/// `views`.
pub fn finals(
    alloc: Global,
    kinds: &[MonoidKind],
    views: &mut Hypermap,
) -> Result<Vec<Final>, AllocError>
    requires { length kinds.now ≤ 64 }
    ensures { IfOk result (λ list. list.items ≡ finals_of views.old 0 kinds.now) }
{
    let mut list = Vec::new(alloc);
    'each: for number in 0..kinds.len() {
        let instance = Instance {
            frame: 1,
            place: number as u32 + 1,
        };
        list.push(last(alloc, views, instance, kinds[number])?)?;
    }
    Ok(list)
}

// The last value of a reducer, taken out of its view.
fn last(
    alloc: Global,
    views: &mut Hypermap,
    instance: Instance,
    kind: MonoidKind,
) -> Result<Final, AllocError>
    ensures value { IfOk result (λ v. v ≡ final_of (value_in views.old kind instance)) }
    ensures others { OnOk result (KeepsOthers views.old views.new instance) }
{
    views.value(alloc, instance, kind)?;
    let Some(value) = views.take(instance, kind) else {
        unreachable!()
    };
    Ok(value)
}

/// Returns a copy of an outcome.
pub fn copied(alloc: Global, outcome: &Outcome) -> Result<Outcome, AllocError>
    ensures { IfOk result (λ o. o ≡ outcome.now) }
{
    let globals = Vec::from_slice(alloc, outcome.globals.as_slice())?;
    let output = Vec::from_slice(alloc, outcome.output.as_slice())?;
    let reducers = copied_values(alloc, outcome.reducers.as_slice())?;
    Ok(Outcome {
        result: outcome.result,
        globals: Sequence::new(globals),
        output: Sequence::new(output),
        reducers: Sequence::new(reducers),
    })
}

fn copied_values(alloc: Global, values: &[Final]) -> Result<Vec<Final>, AllocError>
    ensures { IfOk result (λ list. list.items ≡ values.now) }
{
    let mut list = Vec::new(alloc);
    'each: for value in values {
        list.push(copied_value(alloc, value)?)?;
    }
    Ok(list)
}

fn copied_value(alloc: Global, value: &Final) -> Result<Final, AllocError>
    ensures { IfOk result (λ v. v ≡ value.now) }
{
    match value {
        Final::Number(number) => Ok(Final::Number(*number)),
        Final::List(list) => {
            let items = Vec::from_slice(alloc, list.as_slice())?;
            Ok(Final::List(Sequence::new(items)))
        }
    }
}
