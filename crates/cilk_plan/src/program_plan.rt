//! The plan of an accepted run: all that a worker may know of it.

ghost use Rattle.std.specs.Prelude.{◌≡◌, ℕ, List, IfOk};
ghost use Rattle.cilk_checker.specs.Determinate.{AreFramesOf, HasDeterminateRun};
ghost use Rattle.cilk_lower.specs.Behaves.{Behaves};
ghost use Rattle.cilk_lower.specs.Layout.{LaysOut};
ghost use Rattle.cilk_lower.specs.Rooms.{RoomsFit};
ghost use Rattle.cilk_tree.specs.Resumptions.{AreResumptions};
ghost use Rattle.cilk_program.specs.Sources.{source};
ghost use Rattle.cilk_tree.specs.Orders.{IsOrderly};
ghost use Rattle.cilk_tree.specs.Kinds.{IsBehind};
ghost use Rattle.cilk_tree.specs.Columns.{AreBlockEnds, AreBlocks, AreFirstSpawns, AreStrands};
ghost use Rattle.cilk_plan.specs.Continuations.{SpawnsHaveContinuations};
ghost use Rattle.cilk_plan.specs.Frames.{IsFrameOf};
ghost use Rattle.cilk_plan.specs.Plans.{IsPlanOf};

use crate::laws::plans_have_continuations;
use crate::planning::events;
use cilk_checker::accepted::Accepted;
use cilk_lower::code::Code;
use cilk_lower::layout::PlannedFrame;
use cilk_program::program::Program;
use cilk_tree::blocks::{PlanBlocks, blocks_of};
use cilk_tree::kind::Asked;
use cilk_tree::plan::Plan;
use cilk_tree::plan_strands::strands;
use cilk_types::event::{FrameNo, Pos, StrandNo};
use cilk_types::input::Input;
use std::alloc::{AllocError, Global};
use std::marker::Model;
use std::snapshot::Snapshot;

/// The plan of a program's run.
///
/// It has the program, its code and the run's input; the plan of its events; the body and cells of
/// each frame; and the blocks and strands. It has no value of any event and no outcome, so a worker
/// knows only what it loads or computes. Contracts see the accepted run and its event order.
pub struct ProgramPlan<'a> {
    program: &'a Program,
    input: &'a Input,
    code: &'a Code,
    events: Plan,
    frames: &'a [PlannedFrame],
    syncs: Vec<Pos>,
    firsts: Vec<Pos>,
    blocks: Vec<u32>,
    strands: Vec<StrandNo>,
    resumptions: Vec<Pos>,
    accepted: Snapshot<Accepted>,
}

// A separate function, so that a proof follows one call where a plan is dropped.
impl Drop for ProgramPlan<'_> {
    fn drop(self) {
        let ProgramPlan {
            program: _program,
            input: _input,
            code: _code,
            events: _events,
            frames: _frames,
            syncs: _syncs,
            firsts: _firsts,
            blocks: _blocks,
            strands: _strands,
            resumptions: _resumptions,
            accepted: _accepted,
        } = self;
    }
}

impl<'a> Model for ProgramPlan<'a> {
    ghost use Rattle.std.specs.Prelude.{◌≡◌};
    ghost use Rattle.cilk_checker.specs.Determinate.{AreFramesOf, HasDeterminateRun};
    ghost use Rattle.cilk_lower.specs.Lowered.{IsLowered};
    ghost use Rattle.cilk_tree.specs.Resumptions.{AreResumptions};
    ghost use Rattle.cilk_program.specs.Sources.{source};
    ghost use Rattle.cilk_tree.specs.Columns.{AreBlockEnds, AreBlocks, AreFirstSpawns, AreStrands};
    ghost use Rattle.cilk_plan.specs.Plans.{IsPlanOf, WholePlan, whole_code};

    ghost Value = { WholePlan };

    ghost coded = { whole_code };

    ghost view = { λ p. record { run = p.accepted.value; event_order = p.events } };

    ghost invariant = { λ p. HasDeterminateRun p.accepted.value × (p.program.now ≡ p.accepted.value.program) × (p.input.now ≡ p.accepted.value.input) × IsLowered (source p.accepted.value.program) p.code.now × IsPlanOf p.accepted.value p.events × AreFramesOf p.accepted.value p.frames.now × AreBlockEnds p.events p.syncs.items × AreStrands p.accepted.value.trace p.strands.items × AreResumptions p.events p.resumptions.items × AreBlocks p.events p.syncs.items p.blocks.items × AreFirstSpawns p.events p.syncs.items p.firsts.items };
}

/// Makes the plan of an accepted program's run. Cost and memory: linear in the run's events and
/// cells.
pub fn plan<'a>(alloc: Global, accepted: &'a Accepted) -> Result<ProgramPlan<'a>, AllocError>
    ensures { IfOk result (λ plan. plan.run ≡ accepted.now) }
{
    let program = accepted.program();
    let events = events(alloc, accepted)?;
    plans_have_continuations();
    events.laws();
    let PlanBlocks {
        syncs,
        firsts,
        blocks,
        resumptions,
    } = blocks_of(alloc, &events)?;
    let strands = strands(alloc, accepted.trace())?;
    Ok(ProgramPlan {
        program,
        input: accepted.input(),
        code: accepted.code(),
        events,
        frames: accepted.frames(),
        syncs,
        firsts,
        blocks,
        strands,
        resumptions,
        accepted: Snapshot::of(accepted),
    })
}

impl<'a> ProgramPlan<'a> {
    /// The laws of the plan: the run is determinate (no other order of its events leads to another
    /// state), and each spawn has one continuation, that is one `resume` and the `sync` that ends
    /// its block.
    pub fn laws(&self)
        ensures determinate { HasDeterminateRun self.now.run }
        ensures plan { IsPlanOf self.now.run self.now.event_order }
        ensures order { IsOrderly self.now.event_order }
        ensures continuations { SpawnsHaveContinuations self.now.event_order }
    {
        plans_have_continuations();
        self.events.laws();
    }

    /// Returns the program of the plan's run.
    pub fn program(&self) -> &Program
        ensures { result.now ≡ self.now.run.program }
    {
        self.program
    }

    /// Returns the input of the run.
    pub fn input(&self) -> &Input
        ensures { result.now ≡ self.now.run.input }
    {
        self.input
    }

    /// Returns the program's code.
    pub fn code(&self) -> &Code
        ensures asks { Behaves (source self.now.run.program) result.now }
        ensures rooms { RoomsFit (source self.now.run.program) result.now }
        ensures layout { LaysOut (source self.now.run.program) result.now.layout }
    {
        self.code
    }

    /// Returns the kind and frame of the event after the first `after` events, or `Nothing` past
    /// the last.
    pub fn next(&self, after: Pos) -> Asked
        ensures { IsBehind self.now.event_order after result }
    {
        self.events.next(after)
    }

    /// Returns the plan of the run's events: their kinds with cells and reducers, their frames, and
    /// the opening values of the cells.
    pub fn events(&self) -> &Plan
        ensures event_order { result.now ≡ self.now.event_order }
        ensures plan { IsPlanOf self.now.run self.now.event_order }
    {
        &self.events
    }

    /// Returns the plan of the run's events and drops the rest.
    pub fn into_events(self) -> Plan
        ensures { result ≡ self.entry.event_order }
    {
        let ProgramPlan {
            program: _program,
            input: _input,
            code: _code,
            events,
            frames: _frames,
            syncs: _syncs,
            firsts: _firsts,
            blocks: _blocks,
            strands: _strands,
            resumptions: _resumptions,
            accepted: _accepted,
        } = self;
        events
    }

    /// Returns the accepted run, as contracts see it.
    pub fn accepted(&self) -> &Snapshot<Accepted>
        ensures { result.now.value ≡ self.now.run }
    {
        &self.accepted
    }

    /// Returns the body and cells of each frame of the run, in the order of the frames' numbers.
    pub fn frames(&self) -> &[PlannedFrame]
        ensures { AreFramesOf self.now.run result.now }
    {
        self.frames
    }

    /// Returns the body and cells of the frame with this number, or `None` if the run has no such
    /// frame. Frames are numbered from 1.
    pub fn frame(&self, number: FrameNo) -> Option<PlannedFrame>
        ensures { IsFrameOf self.now.run number result }
    {
        match number {
            0 => None,
            _ => self.frames.get(number as usize - 1).copied(),
        }
    }

    /// Returns the positions of the `sync`s that end blocks with spawns, in the order of these
    /// blocks' first spawns. Their indices are the blocks' numbers.
    pub fn syncs(&self) -> &[Pos]
        ensures { AreBlockEnds self.now.event_order result.now }
    {
        self.syncs.as_slice()
    }

    /// Returns the positions of the first spawns of the blocks with spawns, by the blocks' numbers.
    pub fn firsts(&self) -> &[Pos]
        ensures { (syncs : List ℕ) → AreBlockEnds self.now.event_order syncs → AreFirstSpawns self.now.event_order syncs result.now }
    {
        self.firsts.as_slice()
    }

    /// Returns a column with the block of each position that has one: those of the block's `sync`
    /// and of the `resume`s after its spawns. Each other position has `u32::MAX`.
    pub fn blocks(&self) -> &[u32]
        ensures { (syncs : List ℕ) → AreBlockEnds self.now.event_order syncs → AreBlocks self.now.event_order syncs result.now }
    {
        self.blocks.as_slice()
    }

    /// Returns a column with the strand that begins at each position, or 0 if none does.
    pub fn strands(&self) -> &[StrandNo]
        ensures { AreStrands self.now.event_order.events result.now }
    {
        self.strands.as_slice()
    }

    /// Returns a column with the `resume` of each spawn at the spawn's position, and 0 at all
    /// others.
    pub fn resumptions(&self) -> &[Pos]
        ensures { AreResumptions self.now.event_order result.now }
    {
        self.resumptions.as_slice()
    }
}
