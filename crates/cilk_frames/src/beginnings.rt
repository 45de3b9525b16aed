//! Makes the activations of frames that begin.

ghost use Rattle.std.specs.Prelude.{◌≡◌, ◌==◌, if◌then◌else◌, ◌+◌, ◌<◌, ◌≤◌, ◌∷◌, [], ℕ, List, None, Some, length, slice_get, IfOk};
ghost use Rattle.std.specs.Option.{option_map};
ghost use Rattle.cilk_types.specs.declared.event.Instance.{Instance};
ghost use Rattle.cilk_program.specs.Scopes.{Scope, cell_in};
ghost use Rattle.cilk_program.specs.SerialRun.{given_to, home_of, itself, outer_of, result_of};
ghost use Rattle.cilk_program.specs.Syntax.{Source};
ghost use Rattle.cilk_program.specs.declared.ask.Callee.TheVariants as callees;
ghost use Rattle.cilk_frames.specs.declared.activation.Activation.{Activation};
ghost use Rattle.cilk_frames.specs.Sight.{AreSmall, HasScope, ResultFits};

use crate::activation::Activation;
use crate::places::{cell, instances};
use cilk_program::ask::{FunctionCall, LoopPart};
use cilk_program::syntax::Place;
use cilk_types::event::{Cell, FrameNo};
use std::alloc::{AllocError, Global};

/// Returns the root's activation, given the numbers of global cells and global reducers. `main` is
/// the index of the main function.
pub fn root<C>(alloc: Global, cursor: C, globals: u32, reducers: u32, main: u32) -> Activation<C>
    requires { reducers < 65535 }
    ensures sees { (p : Source) (frames : List (Activation C)) → globals ≡ length p.openings → reducers ≡ length p.reducers → HasScope frames result (home_of p callees.Root 1 globals [] ∷ []) }
    ensures cursor { result.cursor ≡ cursor }
    ensures number { result.number ≡ 1 }
    ensures base { result.base ≡ globals }
    ensures first { result.first ≡ reducers + 1 }
    ensures given { result.given.items ≡ [] }
    ensures outer { result.outer ≡ None }
    ensures result { result.result ≡ None }
    ensures creator { result.creator ≡ Some main }
{
    Activation {
        cursor,
        number: 1,
        base: globals,
        first: reducers + 1,
        given: Vec::new(alloc),
        outer: None,
        result: None,
        creator: Some(main),
    }
}

/// Returns the activation of a function that the frame `top` calls or spawns. `base` is its first
/// cell.
pub fn function<C: Drop>(
    alloc: Global,
    cursor: C,
    number: FrameNo,
    base: Cell,
    frames: &[Activation<C>],
    top: &Activation<C>,
    call: &FunctionCall,
) -> Result<Activation<C>, AllocError>
    requires { (scope : Scope ℕ Instance) × HasScope frames.now top.now scope × AreSmall call.now.reducers × ResultFits scope call.now.result }
    ensures sees { IfOk result (λ a. (p : Source) (scope : Scope ℕ Instance) (more : List (Activation C)) → HasScope frames.now top.now scope → HasScope more a (home_of p (callees.Function call.now) number base (given_to (callees.Function call.now) scope) ∷ outer_of (callees.Function call.now) scope)) }
    ensures result { IfOk result (λ a. (scope : Scope ℕ Instance) → HasScope frames.now top.now scope → a.result ≡ result_of (callees.Function call.now) scope) }
    ensures cursor { IfOk result (λ a. a.cursor ≡ cursor) }
    ensures number { IfOk result (λ a. a.number ≡ number) }
    ensures base { IfOk result (λ a. a.base ≡ base) }
    ensures first { IfOk result (λ a. a.first ≡ 1) }
    ensures given { IfOk result (λ a. (scope : Scope ℕ Instance) → HasScope frames.now top.now scope → a.given.items ≡ given_to (callees.Function call.now) scope) }
    ensures outer { IfOk result (λ a. a.outer ≡ None) }
    ensures creator { IfOk result (λ a. a.creator ≡ Some call.now.function) }
{
    let given = instances(alloc, frames, top, call.reducers.as_slice())?;
    Ok(Activation {
        cursor,
        number,
        base,
        first: 1,
        given,
        outer: None,
        result: result_cell(frames, top, call.result),
        creator: Some(call.function),
    })
}

// The cell that receives the result, if any.
fn result_cell<C>(
    frames: &[Activation<C>],
    top: &Activation<C>,
    place: Option<Place>,
) -> Option<Cell>
    requires { (scope : Scope ℕ Instance) × HasScope frames.now top.now scope × ResultFits scope place }
    ensures { (scope : Scope ℕ Instance) → HasScope frames.now top.now scope → result ≡ option_map (cell_in itself scope) place }
{
    match place {
        Some(place) => Some(cell(frames, top, place)),
        None => None,
    }
}

/// Returns the activation of some turns of a loop that the frame `top` calls or spawns. `base` is
/// its first cell, and `here` the index of `top` in the list of frames once the new frame runs.
pub fn turns<C>(
    alloc: Global,
    cursor: C,
    number: FrameNo,
    base: Cell,
    here: usize,
    top: &Activation<C>,
    part: &LoopPart,
) -> Activation<C>
    requires { part.now.up ≤ 1 }
    ensures sees { (p : Source) (scope : Scope ℕ Instance) (more : List (Activation C)) → slice_get more here ≡ Some top.now → HasScope more top.now scope → HasScope more result (home_of p (callees.Loop part.now) number base (given_to (callees.Loop part.now) scope) ∷ outer_of (callees.Loop part.now) scope) }
    ensures cursor { result.cursor ≡ cursor }
    ensures number { result.number ≡ number }
    ensures base { result.base ≡ base }
    ensures first { result.first ≡ 1 }
    ensures given { result.given.items ≡ [] }
    ensures outer { result.outer ≡ (if part.now.up == 0 then Some here else top.now.outer) }
    ensures result { result.result ≡ None }
    ensures creator { result.creator ≡ None }
{
    let outer = if part.up == 0 { Some(here) } else { top.outer };
    Activation {
        cursor,
        number,
        base,
        first: 1,
        given: Vec::new(alloc),
        outer,
        result: None,
        creator: None,
    }
}
