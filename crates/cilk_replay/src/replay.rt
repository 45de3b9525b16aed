//! The replay of a plan's run on an input.

ghost use Rattle.std.specs.Prelude.{◌≡◌, length, slice_get, unwrap_or};
ghost use Rattle.cilk_program.specs.Sources.{source};
ghost use Rattle.cilk_replay.specs.Replays.{AreFramesAlong, IsBlockOf, IsBodyOf, IsReplay, IsFrameOf, replay_with};
ghost use Rattle.cilk_replay.specs.Awaited.{SyncsAwaitSpawns};
ghost use Rattle.cilk_replay.specs.Resumes.{ResumesAreAsked};
ghost use Rattle.cilk_replay.specs.Starts.{RangesBeginInBlocks, RangesHoldSpawns};

use crate::frame_layout::{CellBlock, FrameLayout};
use cilk_lower::code::Code;
use cilk_lower::layout::PlannedFrame;
use cilk_program::program::{Body, Program};
use cilk_shared::yard::Yard;
use cilk_types::event::FrameNo;
use cilk_types::input::Input;
use std::marker::Model;
use std::snapshot::Snapshot;

/// A replay as contracts see it: its event order, program, code and inputs. It has no bytes.
#[derive(Drop)]
pub struct ReplayModel {
    yard: Snapshot<Yard>,
    program: Snapshot<Program>,
    code: Snapshot<Code>,
    own: Snapshot<Input>,
    input: Snapshot<Input>,
}

impl Model for ReplayModel {
    ghost use Rattle.cilk_replay.specs.Replays.{ReplayValue, replay_code, replay_with};

    ghost Value = { ReplayValue };

    ghost coded = { replay_code };

    ghost view = { λ c. replay_with c.yard.value c.program.value c.code.value c.own.value c.input.value };
}

impl ReplayModel {
    fn of(yard: &Yard, program: &Program, code: &Code, own: &Input, input: &Input) -> ReplayModel
        ensures { result ≡ replay_with yard.now program.now code.now own.now input.now }
    {
        ReplayModel {
            yard: Snapshot::of(yard),
            program: Snapshot::of(program),
            code: Snapshot::of(code),
            own: Snapshot::of(own),
            input: Snapshot::of(input),
        }
    }
}

/// The code of a program and an input for it, along the plan of one of the program's runs; and for
/// each frame of that run its body and its cells.
#[derive(Drop)]
pub struct Replay<'p> {
    model: ReplayModel,
    code: &'p Code,
    input: &'p Input,
    globals: usize,
    reducers: u32,
    frames: &'p [PlannedFrame],
}

impl<'p> Model for Replay<'p> {
    ghost use Rattle.std.specs.Prelude.{◌≡◌, length};
    ghost use Rattle.cilk_program.specs.Sources.{source};
    ghost use Rattle.cilk_replay.specs.Replays.{AreFramesAlong, ReplayValue, IsReplay, replay_code};

    ghost Value = { ReplayValue };

    ghost coded = { replay_code };

    ghost view = { λ c. c.model };

    ghost invariant = { λ c. IsReplay c.model × (c.code.now ≡ c.model.code) × (c.input.now ≡ c.model.inputs)
        × (c.globals ≡ (let p = source c.model.program in length p.openings))
        × (c.reducers ≡ (let p = source c.model.program in length p.reducers))
        × AreFramesAlong c.model c.frames.now };
}

impl<'p> Replay<'p> {
    /// Creates the replay of a program on `input`, along the plan of its serial run on `own`. The
    /// event order of `yard` is that plan as the program makes it on `input`. `frames` has each frame
    /// of that run, by number.
    pub fn new(
        yard: &Yard,
        program: &Program,
        own: &Input,
        code: &'p Code,
        input: &'p Input,
        frames: &'p [PlannedFrame],
    ) -> Replay<'p>
        requires replay { IsReplay (replay_with yard.now program.now code.now own.now input.now) }
        requires frames { AreFramesAlong (replay_with yard.now program.now code.now own.now input.now) frames.now }
        ensures { result ≡ replay_with yard.now program.now code.now own.now input.now }
    {
        Replay {
            model: ReplayModel::of(yard, program, code, own, input),
            code,
            input,
            globals: program.globals.len(),
            reducers: program.reducers.len() as u32,
            frames,
        }
    }

    /// Returns the replay as contracts see it.
    pub fn snapshot(&self) -> Snapshot<ReplayModel>
        ensures { result.value ≡ self.now }
    {
        Snapshot::of(&self.model)
    }

    /// Returns the number of global cells.
    pub fn globals(&self) -> usize
        ensures { let p = source self.now.program in result ≡ length p.openings }
    {
        self.globals
    }

    /// Returns the layout of the root's frame. Its number is 1, and it creates the global reducers
    /// before its own.
    pub fn root(&self) -> FrameLayout
        ensures block { IsBlockOf self.now 1 result.block }
        ensures frame { result.frame ≡ 1 }
        ensures before { let p = source self.now.program in result.before ≡ length p.reducers }
    {
        FrameLayout {
            block: self.block(1),
            frame: 1,
            before: self.reducers,
        }
    }

    /// Returns the layout of the child with this number, if the plan's run has that frame.
    pub fn child(&self, frame: FrameNo) -> FrameLayout
        ensures block { IsBlockOf self.now frame result.block }
        ensures frame { result.frame ≡ frame }
        ensures before { result.before ≡ 0 }
    {
        FrameLayout {
            block: self.block(frame),
            frame,
            before: 0,
        }
    }

    /// Returns the cells of the frame with this number, if the plan's run has that frame.
    pub fn block(&self, frame: FrameNo) -> CellBlock
        ensures { IsBlockOf self.now frame result }
    {
        let frame = self.planned(frame);
        CellBlock {
            first: frame.first_cell,
            cells: frame.cells,
        }
    }

    /// Returns the function or loop of the frame with this number, if the plan's run has that
    /// frame.
    pub fn body(&self, frame: FrameNo) -> Body
        ensures { IsBodyOf self.now frame result }
    {
        self.planned(frame).body
    }

    /// Returns the body and the cells of the frame with this number. A number past the last frame's
    /// gives function 0 without cells.
    pub fn planned(&self, frame: FrameNo) -> PlannedFrame
        ensures { IsFrameOf self.now frame result }
    {
        let none = PlannedFrame {
            body: Body::Function(0),
            first_cell: 0,
            cells: 0,
        };
        frame_at(self.frames, frame.saturating_sub(1), none)
    }

    /// Returns the program's code.
    pub fn code(&self) -> &Code
        ensures { result.now ≡ self.now.code }
    {
        self.code
    }

    /// Returns the current input.
    pub fn input(&self) -> &Input
        ensures { result.now ≡ self.now.inputs }
    {
        self.input
    }

    /// States the invariant of a replay.
    pub fn laws(&self)
        ensures { IsReplay self.now }
    {
        let _code = self.code;
    }

    /// States that a frame that requests a spawn requests the `resume` after it: the run doesn't
    /// depart there.
    pub fn resumes(&self)
        ensures { let y = self.now.yard in ResumesAreAsked y.event_order }
    {
        self.laws();
    }

    /// States that a piece doesn't begin inside a child after which it ends: where the `resume`
    /// after a spawn comes next, the piece has the spawn.
    pub fn holds_spawns(&self)
        ensures { let y = self.now.yard in RangesHoldSpawns y.event_order }
    {
        self.laws();
    }

    /// States that a piece that has come to a `sync`, and lacks a child that the `sync` awaits,
    /// doesn't begin inside a child: it begins at the `resume` after a spawn of that block.
    pub fn begins_in_blocks(&self)
        ensures { let y = self.now.yard in RangesBeginInBlocks y.event_order }
    {
        self.laws();
    }

    /// States that a `sync` awaits only children that are spawned in its block.
    pub fn awaits(&self)
        ensures { let y = self.now.yard in SyncsAwaitSpawns y.event_order }
    {
        self.laws();
    }
}

fn frame_at(frames: &[PlannedFrame], place: u32, other: PlannedFrame) -> PlannedFrame
    ensures { result ≡ unwrap_or (slice_get frames.now place) other }
{
    match frames.get(place as usize) {
        Some(frame) => *frame,
        None => other,
    }
}
