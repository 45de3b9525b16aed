//! Chains: the frames that continue at a position of a run.

ghost use Rattle.std.specs.Prelude.{◌≡◌, ◌+◌, ◌<◌, false, IfOk, IsTrue, OnErr, OnOk};
ghost use Rattle.cilk_types.specs.declared.event.Event.TheVariants.{End};
ghost use Rattle.cilk_tree.specs.Word.{resume, word_step};
ghost use Rattle.cilk_replay.specs.Chains.{standing, task_of};
ghost use Rattle.cilk_replay.specs.Making.{Compares};
ghost use Rattle.cilk_shared.specs.Pieces.{PieceValue};

use crate::child::{body_asked, body_matches};
use crate::plan_match::PlanMatch;
use crate::reducer::{reducer_asked, reducer_matches};
use crate::replay::{Replay, ReplayModel};
use crate::replay_frame::{ReplayFrame, go_on};
use crate::sight::{Sight, cell_asked, cell_matches};
use crate::sort::{asked_sort, kind_sort};
use crate::stretch::Maker;
use cilk_frames::asked::AskSlot;
use cilk_frames::cursor::Answer;
use cilk_frames::small_ask::SmallAsk;
use cilk_shared::piece::Piece;
use cilk_tree::kind::Kind;
use cilk_types::event::{FrameNo, Pos};
use std::alloc::{AllocError, Global};
use std::marker::Model;
use std::mem;
use std::snapshot::Snapshot;

/// A frame that has requested an event, and its callers up to the nearest frame that was spawned.
pub struct Chain {
    of: Snapshot<ReplayModel>,
    at: Pos,
    asked: AskSlot,
    top: Box<ReplayFrame>,
    below: Vec<ReplayFrame>,
}

// A function of its own, so that a proof follows one call where a chain is dropped.
impl Drop for Chain {
    fn drop(self) {
        let Chain {
            of: _of,
            at: _at,
            asked: _asked,
            top: _top,
            below: _below,
        } = self;
    }
}

impl Model for Chain {
    ghost use Rattle.cilk_replay.specs.Chains.{ChainValue, chain_code, standing};
    ghost use Rattle.cilk_replay.specs.Standing.{Stand};

    ghost Value = { ChainValue };

    ghost coded = { chain_code };

    ghost view = { λ c. standing c.of.value c.at };

    ghost invariant = { λ c. Stand c.of.value c.at c.asked c.top.value c.below.items };
}

/// A frame that is still to continue after its child, called or spawned, and its callers up to the
/// nearest frame that was spawned.
#[derive(Drop)]
pub struct Rest {
    of: Snapshot<ReplayModel>,
    at: Pos,
    top: Box<ReplayFrame>,
    below: Vec<ReplayFrame>,
}

impl Model for Rest {
    ghost use Rattle.cilk_replay.specs.Chains.{ChainValue, chain_code, standing};
    ghost use Rattle.cilk_replay.specs.Standing.{Rest};

    ghost Value = { ChainValue };

    ghost coded = { chain_code };

    ghost view = { λ c. standing c.of.value c.at };

    ghost invariant = { λ c. Rest c.of.value c.at c.top.value c.below.items };
}

// Whether a frame with this sight, which has requested this, requests an event of this kind that the
// plan has next.
#[inline(always)]
pub(crate) fn compared(replay: &Replay, sight: &Sight, asked: &AskSlot, kind: Kind) -> PlanMatch
    ensures { Compares replay.now sight.now asked.now kind result }
{
    if asked_sort(asked) != kind_sort(kind) {
        return PlanMatch::Departs;
    }
    match kind {
        Kind::Read { cell } | Kind::Write { cell } => cell_matches(
            cell_asked(replay.globals(), sight, asked),
            cell,
        ),
        Kind::Begin { .. } | Kind::Resume { .. } | Kind::Sync | Kind::End | Kind::Print => {
            PlanMatch::Follows
        }
        Kind::Spawn { child } | Kind::Call { child } => {
            body_matches(replay.body(child), body_asked(asked))
        }
        Kind::Create { instance }
        | Kind::Update { instance }
        | Kind::Set { instance }
        | Kind::Value { instance } => reducer_matches(reducer_asked(sight, asked), instance),
    }
}

impl Chain {
    ghost use Rattle.std.specs.Prelude.{Some};
    ghost use Rattle.cilk_tree.specs.Kinds.{kind_of_event};
    ghost use Rattle.cilk_tree.specs.Word.{event};
    ghost use Rattle.cilk_replay.specs.Sorts.{Says};
    ghost use Rattle.cilk_replay.specs.Asking.{BeginsNext, Calls, Follows, IsAnswered, IsNextAsk, Spawns};
    ghost use Rattle.cilk_replay.specs.Standing.{IsTheOutermost};

    /// Creates the chain of the root's frame, before it begins.
    pub fn root(alloc: Global, replay: &Replay) -> Result<Chain, AllocError>
        ensures { IfOk result (λ c. c ≡ standing replay.now 1) }
    {
        replay.laws();
        let replay_frame = ReplayFrame::root(alloc, replay, replay.root())?;
        let top = Box::new(alloc, replay_frame)?;
        Ok(Chain {
            of: replay.snapshot(),
            at: 1,
            asked: AskSlot::new(),
            top,
            below: Vec::new(alloc),
        })
    }

    /// Returns the position at which the frame continues.
    pub fn at(&self) -> Pos
        ensures { result ≡ self.now.at }
    {
        let Chain { at, .. } = self;
        *at
    }

    /// Returns the frame's next request. While the run follows its event order, the request makes
    /// the order's event.
    pub fn ask(&self) -> &AskSlot
        ensures { IsNextAsk self.now.of self.now.at result.now }
    {
        &self.asked
    }

    /// Returns whether the frame requests the plan's event at its position, which is of this kind.
    #[inline(always)]
    pub fn matches_plan(&self, replay: &Replay, kind: Kind) -> PlanMatch
        requires replay { replay.now ≡ self.now.of }
        requires kind { kind_of_event (event self.now.of.yard.event_order self.now.at) ≡ Some kind }
        ensures { Says self.now.of.yard.event_order self.now.at kind result }
    {
        let replay_frame = &*self.top;
        compared(replay, &replay_frame.sight, &self.asked, kind)
    }

    /// Continues the frame with the answer to its event.
    pub fn answer(&mut self, replay: &Replay, answer: Answer)
        requires replay { replay.now ≡ self.old.of }
        requires answer { IsAnswered self.old.of.yard.event_order self.old.at answer }
        ensures { self.new ≡ standing self.old.of (self.old.at + 1) }
    {
        go_on(&mut self.top, replay, answer, &mut self.asked);
        self.at += 1;
    }

    /// Makes the frame's next events, as long as the maker makes them, up to its next invocation or
    /// end at most. `piece` is the one that the frame continues.
    pub fn along<M: Maker>(&mut self, alloc: Global, replay: &Replay, maker: &M, piece: &mut Piece)
        requires replay { replay.now ≡ self.old.of }
        requires maker { M.of maker.now ≡ replay.now }
        requires place { piece.old.upto ≡ self.old.at }
        requires reached { (first : PieceValue) × M.reaches maker.now first piece.old }
        ensures chain { self.new ≡ standing self.old.of piece.new.upto }
        ensures reached { (first : PieceValue) → M.reaches maker.now first piece.old
            → M.reaches maker.now first piece.new }
    {
        self.top.along(alloc, replay, &mut self.asked, maker, piece);
        self.at = piece.upto();
    }

    /// Begins the called child, while its caller waits. `frame` is the child's number, as in its
    /// `begin`. Out of memory, nothing changes.
    pub fn call(&mut self, alloc: Global, replay: &Replay, frame: FrameNo) -> Result<(), AllocError>
        requires replay { replay.now ≡ self.old.of }
        requires calls { Calls self.old.of.yard.event_order self.old.at }
        requires begins { BeginsNext self.old.of.yard.event_order self.old.at frame }
        ensures ok { OnOk result (self.new ≡ standing self.old.of (self.old.at + 1)) }
        ensures err { OnErr result (self.new ≡ self.old) }
    {
        self.below.reserve(1)?;
        let operands = self.asked.spare(alloc);
        let layout = replay.child(frame);
        let sight = &self.top.sight;
        let child = ReplayFrame::begun(alloc, operands, replay, &self.asked, layout, sight)?;
        let caller = mem::replace(&mut *self.top, child);
        self.below.push_reserved(caller);
        self.asked.put(SmallAsk::Begin);
        self.at += 1;
        Ok(())
    }

    /// Begins the spawned child, alone. Returns the parent with its callers, which continues at
    /// `next`. `frame` is the child's number, as in its `begin`. Out of memory, nothing changes.
    pub fn spawn(
        &mut self,
        alloc: Global,
        replay: &Replay,
        frame: FrameNo,
        next: Pos,
    ) -> Result<Rest, AllocError>
        requires replay { replay.now ≡ self.old.of }
        requires spawns { Spawns self.old.of.yard.event_order self.old.at next }
        requires begins { BeginsNext self.old.of.yard.event_order self.old.at frame }
        ensures child { OnOk result (self.new ≡ standing self.old.of (self.old.at + 1)) }
        ensures parent { IfOk result (λ rest. rest ≡ standing self.old.of next) }
        ensures err { OnErr result (self.new ≡ self.old) }
    {
        let operands = self.asked.spare(alloc);
        let layout = replay.child(frame);
        let sight = &self.top.sight;
        let replay_frame = ReplayFrame::begun(alloc, operands, replay, &self.asked, layout, sight)?;
        let child = Box::new(alloc, replay_frame)?;
        let rest = Rest {
            of: replay.snapshot(),
            at: next,
            top: mem::replace(&mut self.top, child),
            below: mem::replace(&mut self.below, Vec::new(alloc)),
        };
        self.asked.put(SmallAsk::Begin);
        self.at += 1;
        Ok(rest)
    }

    /// Leaves the frame, which has ended, and continues those of `rest` after their child.
    pub fn follow(&mut self, alloc: Global, replay: &Replay, rest: Rest)
        requires { replay.now ≡ rest.of }
        ensures { self.new ≡ rest }
    {
        let Rest { of, at, top, below } = rest;
        let operands = self.top.cursor.take_operands(alloc);
        self.asked.keep(alloc, operands);
        self.of = of;
        self.at = at;
        self.top = top;
        self.below = below;
        go_on(&mut self.top, replay, Answer::Done, &mut self.asked);
    }

    /// Ends the frame and continues its caller. Returns false if it has no caller here, since it
    /// was spawned or is the root's; then nothing changes.
    pub fn end(&mut self, alloc: Global, replay: &Replay) -> bool
        requires replay { replay.now ≡ self.old.of }
        requires end { Follows self.old.of.yard.event_order self.old.at End }
        ensures caller { IsTrue result → self.new ≡ standing self.old.of (self.old.at + 1) }
        ensures outermost { result ≡ false → (self.new ≡ self.old) × IsTheOutermost self.old.of self.old.at }
    {
        let Some(caller) = self.below.pop() else {
            return false;
        };
        let operands = self.top.cursor.take_operands(alloc);
        self.asked.keep(alloc, operands);
        *self.top = caller;
        go_on(&mut self.top, replay, Answer::Done, &mut self.asked);
        self.at += 1;
        true
    }
}

impl Rest {
    /// Returns the position at which the frame continues.
    pub fn at(&self) -> Pos
        ensures { result ≡ self.now.at }
    {
        let Rest { at, .. } = self;
        *at
    }

    /// Continues the frame after its child.
    pub fn wake(self, replay: &Replay) -> Chain
        requires { replay.now ≡ self.of }
        ensures { result ≡ self }
    {
        let Rest {
            of,
            at,
            mut top,
            below,
        } = self;
        let mut asked = AskSlot::new();
        go_on(&mut top, replay, Answer::Done, &mut asked);
        Chain {
            of,
            at,
            asked,
            top,
            below,
        }
    }
}

/// A continuation that can be taken: its ticket, and the frames that continue there.
#[derive(Drop)]
pub struct Task {
    ticket: Pos,
    rest: Rest,
}

impl Model for Task {
    ghost use Rattle.std.specs.Prelude.{◌≡◌};
    ghost use Rattle.cilk_tree.specs.Word.{resume, word_step};
    ghost use Rattle.cilk_replay.specs.Chains.{TaskValue, task_code, task_of};

    ghost Value = { TaskValue };

    ghost coded = { task_code };

    ghost view = { λ t. task_of t.ticket t.rest };

    ghost invariant = { λ t. word_step t.rest.of.yard.event_order t.rest.at ≡ resume t.ticket };
}

impl Task {
    /// Creates the continuation after the spawn at `ticket`. Its frame continues at the `resume` of
    /// that spawn.
    pub fn new(ticket: Pos, rest: Rest) -> Task
        requires { word_step rest.of.yard.event_order rest.at ≡ resume ticket }
        ensures { result ≡ task_of ticket rest }
    {
        Task { ticket, rest }
    }

    /// Returns the position of the spawn.
    pub fn ticket(&self) -> Pos
        ensures { result ≡ self.now.ticket }
    {
        self.ticket
    }

    /// Returns the position of the continuation.
    pub fn at(&self) -> Pos
        ensures place { result ≡ self.now.at }
        ensures resumption { word_step self.now.of.yard.event_order result ≡ resume self.now.ticket }
    {
        self.rest.at()
    }

    /// Returns the frames that continue there.
    pub fn rest(self) -> Rest
        ensures rest { result ≡ standing self.of self.at }
        ensures resumption { word_step self.of.yard.event_order self.at ≡ resume self.ticket }
    {
        let Task { ticket: _, rest } = self;
        rest
    }
}
