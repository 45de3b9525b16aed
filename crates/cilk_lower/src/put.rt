//! Appends instructions to the code, each with the byte of the text that it comes from.
//!
//! A forward jump is first written with distance 0, and patched when the instructions that it skips
//! have been appended.

ghost use Rattle.std.specs.Prelude.{◌≡◌, ◌+◌, ◌-◌, ◌<◌, pos, [], ◌∷◌, ◌++◌, length, IfOk, OnOk, slice_set};
ghost use Rattle.cilk_lower.specs.declared.code.Instr.{Instr};
ghost use Rattle.cilk_lower.specs.Code.{ends, halves_code};

use crate::code::Instr;
use cilk_monoid::kind::MonoidKind;
use cilk_program::syntax::{Reducer, ReducerPlace};
use std::alloc::{AllocError, Global};
use std::marker::Model;

/// The instructions so far, and the byte of the text that each comes from.
pub struct Listing {
    instrs: Vec<Instr>,
    origins: Vec<usize>,
}

// A separate function, so that a proof follows one call where a listing is dropped.
impl Drop for Listing {
    fn drop(self) {
        let Listing {
            instrs: _instrs,
            origins: _origins,
        } = self;
    }
}

impl Model for Listing {
    ghost use Rattle.cilk_lower.specs.Code.{ListingView, listing_of};

    ghost Value = { ListingView };

    ghost view = { λ l. listing_of l.instrs };
}

impl Listing {
    /// Creates a listing without instructions.
    pub fn new(alloc: Global) -> Listing
        ensures items { result.items ≡ [] }
        ensures none { length result.items ≡ 0 }
    {
        Listing {
            instrs: Vec::new(alloc),
            origins: Vec::new(alloc),
        }
    }

    /// Returns the number of instructions.
    pub fn len(&self) -> usize
        ensures { result ≡ length self.now.items }
    {
        self.instrs.len()
    }

    /// Returns the instructions, and the byte that each comes from.
    pub fn into_parts(self) -> (Vec<Instr>, Vec<usize>)
        ensures { result.0.items ≡ self.items }
    {
        let Listing { instrs, origins } = self;
        (instrs, origins)
    }
}

/// Appends a statement's tick.
pub fn begin(code: &mut Listing, at: usize) -> Result<(), AllocError>
    ensures { OnOk result (code.new.items ≡ code.old.items ++ Instr.Tick ∷ []) }
{
    put(code, at, Instr::Tick)
}

/// Appends the creation of a reducer.
pub fn put_create(
    code: &mut Listing,
    at: usize,
    place: ReducerPlace,
    kind: MonoidKind,
) -> Result<(), AllocError>
    ensures { OnOk result (code.new.items ≡ code.old.items ++ Instr.Create (record { place = place; kind = kind }) ∷ []) }
{
    put(code, at, Instr::Create(Reducer { place, kind }))
}

/// Appends the end of a frame: it waits for its children, gives its result and ends.
pub fn put_ends(code: &mut Listing, at: usize) -> Result<(), AllocError>
    ensures { OnOk result (code.new.items ≡ code.old.items ++ ends) }
{
    put(code, at, Instr::Sync)?;
    put(code, at, Instr::GiveResult)?;
    put(code, at, Instr::End)
}

/// Appends the code of a frame with several turns, which spawns the first half and calls the
/// second.
pub fn put_halves(code: &mut Listing, at: usize) -> Result<(), AllocError>
    ensures { OnOk result (code.new.items ≡ code.old.items ++ halves_code) }
{
    put(code, at, Instr::SpawnHalf)?;
    put(code, at, Instr::Resume)?;
    put(code, at, Instr::CallHalf)?;
    put(code, at, Instr::Resume)?;
    put_ends(code, at)
}

/// Appends the end of `&&` after its right side: the truth of that side, or 0 if the left side was
/// 0.
#[tactic(auto, using(crate::proofs::Patch::and_ends))]
pub fn end_and(code: &mut Listing, at: usize, skip: usize) -> Result<(), AllocError>
    requires { skip < length code.old.items }
    ensures { OnOk result (code.new.items ≡ slice_set code.old.items skip (Instr.JumpIfZero (length code.old.items - skip + 1)) ++ (Instr.Truth ∷ (Instr.Jump 1 ∷ (Instr.Push (pos 0) ∷ [])))) }
{
    put(code, at, Instr::Truth)?;
    put(code, at, Instr::Jump(1))?;
    pass_if_zero(code, skip);
    put(code, at, Instr::Push(0))
}

/// Appends the middle of `||`: 1 if the left side wasn't 0, and then a jump over the right side.
/// Returns the place of that jump.
pub fn begin_or(code: &mut Listing, at: usize) -> Result<usize, AllocError>
    ensures code { OnOk result (code.new.items ≡ code.old.items ++ (Instr.JumpIfZero 2 ∷ (Instr.Push (pos 1) ∷ (Instr.Jump 0 ∷ [])))) }
    ensures place { IfOk result (λ n. n ≡ length code.old.items + 2) }
{
    put(code, at, Instr::JumpIfZero(2))?;
    put(code, at, Instr::Push(1))?;
    put_jump(code, at, Instr::Jump(0))
}

/// Appends the end of `||` after its right side: the truth of that side.
#[tactic(auto, using(crate::proofs::Patch::or_ends))]
pub fn end_or(code: &mut Listing, at: usize, jump: usize) -> Result<(), AllocError>
    requires { jump < length code.old.items }
    ensures { OnOk result (code.new.items ≡ slice_set code.old.items jump (Instr.Jump (length code.old.items - jump)) ++ Instr.Truth ∷ []) }
{
    put(code, at, Instr::Truth)?;
    pass(code, jump);
    Ok(())
}

/// Appends a jump over the second branch of a choice, and returns its place. Patches the test at
/// `skip`, which jumps to the second branch.
pub fn begin_else(code: &mut Listing, at: usize, skip: usize) -> Result<usize, AllocError>
    requires { skip < length code.old.items }
    ensures code { OnOk result (code.new.items ≡ slice_set (code.old.items ++ Instr.Jump 0 ∷ []) skip (Instr.JumpIfZero (length code.old.items - skip))) }
    ensures place { IfOk result (λ n. n ≡ length code.old.items) }
{
    let jump = put_jump(code, at, Instr::Jump(0))?;
    pass_if_zero(code, skip);
    Ok(jump)
}

/// Appends a jump back to a place.
pub fn go_back(code: &mut Listing, at: usize, start: usize) -> Result<(), AllocError>
    requires { start < length code.old.items }
    ensures { OnOk result (code.new.items ≡ code.old.items ++ Instr.JumpBack (length code.old.items - start) ∷ []) }
{
    let end = code.len();
    put(code, at, Instr::JumpBack(end - start))
}

/// Appends a jump back to a place unless the value on top is 0.
pub fn go_back_unless_zero(code: &mut Listing, at: usize, start: usize) -> Result<(), AllocError>
    requires { start < length code.old.items }
    ensures { OnOk result (code.new.items ≡ code.old.items ++ Instr.JumpBackUnlessZero (length code.old.items - start) ∷ []) }
{
    let end = code.len();
    put(code, at, Instr::JumpBackUnlessZero(end - start))
}

/// Patches the test at a place, which then skips all instructions after it.
pub fn pass_if_zero(code: &mut Listing, place: usize)
    requires { place < length code.old.items }
    ensures { code.new.items ≡ slice_set code.old.items place (Instr.JumpIfZero (length code.old.items - place - 1)) }
{
    code.instrs[place] = Instr::JumpIfZero(code.len() - place - 1);
}

/// Patches the test for one turn at a place, which then skips all instructions after it.
pub fn pass_unless_one(code: &mut Listing, place: usize)
    requires { place < length code.old.items }
    ensures { code.new.items ≡ slice_set code.old.items place (Instr.SkipUnlessOne (length code.old.items - place - 1)) }
{
    code.instrs[place] = Instr::SkipUnlessOne(code.len() - place - 1);
}

/// Patches the jump at a place, which then skips all instructions after it.
pub fn pass(code: &mut Listing, place: usize)
    requires { place < length code.old.items }
    ensures { code.new.items ≡ slice_set code.old.items place (Instr.Jump (length code.old.items - place - 1)) }
{
    code.instrs[place] = Instr::Jump(code.len() - place - 1);
}

/// Appends an instruction, and returns its place.
pub fn put_jump(code: &mut Listing, at: usize, instr: Instr) -> Result<usize, AllocError>
    ensures code { OnOk result (code.new.items ≡ code.old.items ++ instr ∷ []) }
    ensures place { IfOk result (λ n. n ≡ length code.old.items) }
{
    let place = code.len();
    put(code, at, instr)?;
    Ok(place)
}

/// Appends an instruction that pushes one operand, and returns 1.
pub fn put_operand(code: &mut Listing, at: usize, instr: Instr) -> Result<usize, AllocError>
    ensures code { OnOk result (code.new.items ≡ code.old.items ++ instr ∷ []) }
    ensures depth { IfOk result (λ d. d ≡ 1) }
{
    put(code, at, instr)?;
    Ok(1)
}

/// Appends an instruction that comes from byte `at`.
pub fn put(code: &mut Listing, at: usize, instr: Instr) -> Result<(), AllocError>
    ensures { OnOk result (code.new.items ≡ code.old.items ++ instr ∷ []) }
{
    code.instrs.push(instr)?;
    code.origins.push(at)?;
    Ok(())
}
