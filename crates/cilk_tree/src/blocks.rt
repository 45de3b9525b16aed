//! The sync blocks of a plan and the resumptions of its spawns, found in one pass.

ghost use Rattle.std.specs.Prelude.{◌≡◌, ◌≢◌, ◌↔◌, ◌+◌, ◌-◌, ◌<◌, ◌≤◌, ◌^◌, ℕ, [], Some, length, slice_index_or, slice_set, IfOk, OnOk};
ghost use Rattle.cilk_types.specs.declared.event.Event.TheVariants.{Sync};
ghost use Rattle.cilk_tree.specs.Columns.{AreBlockEnds, AreBlocks, AreFirstSpawns, BlocksEnd, no_block};
ghost use Rattle.cilk_tree.specs.Frames.{IsInFrame};
ghost use Rattle.cilk_tree.specs.Placing.{HasMet, IsPlaced, Met};
ghost use Rattle.cilk_tree.specs.Resumptions.{AreResumptions};
ghost use Rattle.cilk_tree.specs.Word.{event, resume, spawn, word_step};

use crate::kind::Kind;
use crate::plan::Plan;
use cilk_types::event::{FrameNo, Pos};
use std::alloc::{AllocError, Global};

/// The continuation of a spawn: the positions of the `resume` that begins it and of the `sync` that
/// ends its block.
#[derive(Clone, Copy)]
pub struct Continuation {
    pub resume: Pos,
    pub sync: Pos,
}

/// The sync blocks of a plan that have spawns, and the `resume`s after these spawns.
#[derive(Drop)]
pub struct PlanBlocks {
    /// The positions of the `sync`s that end these blocks, in the order of the blocks' first
    /// spawns. A block's number is the index of its `sync`.
    pub syncs: Vec<Pos>,
    /// The positions of these blocks' first spawns, by the blocks' numbers.
    pub firsts: Vec<Pos>,
    /// At the position of each block's `sync` and of the `resume`s after its spawns, the block's
    /// number; `u32::MAX` at all others.
    pub blocks: Vec<u32>,
    /// At the position of each spawn, that of its `resume`; 0, which is no position, at all others.
    pub resumptions: Vec<Pos>,
}

/// Returns the sync blocks of a plan and the resumptions of its spawns. A `sync` that awaits no
/// child has no block: its only immediate predecessor is the event before it, so it always passes.
/// Cost and memory: linear in the events.
pub fn blocks_of(alloc: Global, plan: &Plan) -> Result<PlanBlocks, AllocError>
    requires { BlocksEnd plan.now }
    ensures syncs { IfOk result (λ r. AreBlockEnds plan.now r.syncs.items) }
    ensures firsts { IfOk result (λ r. AreFirstSpawns plan.now r.syncs.items r.firsts.items) }
    ensures blocks { IfOk result (λ r. AreBlocks plan.now r.syncs.items r.blocks.items) }
    ensures resumptions { IfOk result (λ r. AreResumptions plan.now r.resumptions.items) }
{
    plan.laws();
    let count = plan.count();
    let mut pass = Pass::new(alloc, count)?;
    'each: for met in 0..count {
        let at = met as Pos + 1;
        match plan.kind_behind(met) {
            Kind::Spawn { .. } => pass.spawn(plan, at, plan.frame_behind(met))?,
            Kind::Resume { .. } => pass.resume(plan, at, resumed_by(plan, at)),
            Kind::Sync => pass.sync(plan, at, plan.frame_behind(met)),
            _ => {}
        }
    }
    let Pass {
        syncs,
        firsts,
        blocks,
        resumptions,
        pending: _pending,
    } = pass;
    Ok(PlanBlocks {
        syncs,
        firsts,
        blocks,
        resumptions,
    })
}

// The columns of the events met. A block whose `sync` isn't met yet has 0 in `syncs`. A spawn whose
// `resume` isn't met yet has its block in `resumptions`. A frame's block that has yet to end is in
// `pending`, at the frame's number; if there is none, `u32::MAX`.
#[derive(Drop)]
struct Pass {
    syncs: Vec<Pos>,
    firsts: Vec<Pos>,
    blocks: Vec<u32>,
    resumptions: Vec<Pos>,
    pending: Vec<u32>,
}

impl Pass {
    // Before the first of `count` events.
    fn new(alloc: Global, count: usize) -> Result<Pass, AllocError>
        requires { count < 2 ^ 32 }
        ensures syncs { IfOk result (λ r. r.syncs.items ≡ []) }
        ensures firsts { IfOk result (λ r. r.firsts.items ≡ []) }
        ensures pending { IfOk result (λ r. r.pending.items ≡ []) }
        ensures blocks { IfOk result (λ r. ((p : ℕ) → slice_index_or r.blocks.items p no_block ≡ no_block) × (length r.blocks.items ≡ count + 1)) }
        ensures resumptions { IfOk result (λ r. ((p : ℕ) → slice_index_or r.resumptions.items p 0 ≡ 0) × (length r.resumptions.items ≡ count + 1)) }
    {
        let blocks = filled(alloc, count + 1, u32::MAX)?;
        let resumptions = filled(alloc, count + 1, 0)?;
        Ok(Pass {
            syncs: Vec::new(alloc),
            firsts: Vec::new(alloc),
            blocks,
            resumptions,
            pending: Vec::new(alloc),
        })
    }

    // Meets a spawn of the frame. It is in the frame's block that has yet to end, or begins one.
    fn spawn(&mut self, plan: &Plan, at: Pos, frame: FrameNo) -> Result<(), AllocError>
        requires ended { BlocksEnd plan.now }
        requires there { (word_step plan.now at ≡ spawn) × IsInFrame plan.now.events at frame }
        requires met { Met plan.now (at - 1) self.old }
        ensures { OnOk result (Met plan.now at self.new) }
    {
        plan.laws();
        let known = block_of(&self.pending, frame);
        if known != u32::MAX {
            put(&mut self.resumptions, at as usize, known);
            return Ok(());
        }
        let block = self.syncs.len() as u32;
        self.syncs.push(0)?;
        self.firsts.push(at)?;
        set_block(&mut self.pending, frame as usize, block)?;
        put(&mut self.resumptions, at as usize, block);
        Ok(())
    }

    // Meets the `resume` after this spawn, or after a call.
    fn resume(&mut self, plan: &Plan, at: Pos, spawned: Option<Pos>)
        requires plain { (word_step plan.now at ≢ spawn) × (event plan.now at ≢ Some Sync) }
        requires spawned { (k : ℕ) → (spawned ≡ Some k) ↔ (word_step plan.now at ≡ resume k) }
        requires met { Met plan.now (at - 1) self.old }
        requires within { (1 ≤ at) × (at ≤ length plan.now.events) }
        ensures { Met plan.now at self.new }
    {
        plan.laws();
        if let Some(spawn) = spawned {
            let block = self.resumptions[spawn as usize];
            put(&mut self.resumptions, spawn as usize, at);
            put(&mut self.blocks, at as usize, block);
        }
    }

    // Meets a `sync` of the frame. It ends the frame's block with spawns, if there is one.
    fn sync(&mut self, plan: &Plan, at: Pos, frame: FrameNo)
        requires there { (event plan.now at ≡ Some Sync) × IsInFrame plan.now.events at frame }
        requires met { Met plan.now (at - 1) self.old }
        requires within { (1 ≤ at) × (at ≤ length plan.now.events) }
        ensures { Met plan.now at self.new }
    {
        plan.laws();
        let ended = block_of(&self.pending, frame);
        if ended != u32::MAX {
            put(&mut self.syncs, ended as usize, at);
            put(&mut self.blocks, at as usize, ended);
            put(&mut self.pending, frame as usize, u32::MAX);
        }
    }
}

// The spawn whose continuation is resumed at a position, if there is one. Not inlined, since its
// arithmetic would be done at each event.
#[inline(never)]
fn resumed_by(plan: &Plan, at: Pos) -> Option<Pos>
    ensures { (k : ℕ) → (result ≡ Some k) ↔ (word_step plan.now at ≡ resume k) }
{
    plan.resumed_by(at)
}

// The block at a place, or `u32::MAX` if there is none.
fn block_of(column: &Vec<u32>, place: u32) -> u32
    ensures { result ≡ slice_index_or column.now.items place no_block }
{
    match column.get(place as usize) {
        Some(block) => *block,
        None => u32::MAX,
    }
}

// Sets the number at a place and grows the column as needed.
fn set_block(column: &mut Vec<u32>, place: usize, number: u32) -> Result<(), AllocError>
    requires { place < 2 ^ 32 }
    ensures { OnOk result (IsPlaced column.old.items place number column.new.items) }
{
    if place >= column.len() {
        column.resize(place + 1, u32::MAX)?;
    }
    column[place] = number;
    Ok(())
}

// A column of `count` times this number.
fn filled(alloc: Global, count: usize, number: u32) -> Result<Vec<u32>, AllocError>
    ensures each { IfOk result (λ v. (p : ℕ) → slice_index_or v.items p number ≡ number) }
    ensures long { IfOk result (λ v. length v.items ≡ count) }
{
    let mut column = Vec::with_capacity(alloc, count)?;
    column.resize(count, number)?;
    Ok(column)
}

// Writes a number at a place of the column.
fn put(column: &mut Vec<u32>, place: usize, number: u32)
    requires { place < length column.old.items }
    ensures { column.new.items ≡ slice_set column.old.items place number }
{
    column[place] = number;
}
