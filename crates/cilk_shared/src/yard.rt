//! The shared words of a run, and the segments through which they are read and written.

ghost use Rattle.std.specs.Prelude.{◌≡◌, ◌↔◌, ℕ, ◌+◌, ◌<◌, ◌≤◌, ℤ, List, Option, Some, None, length, slice_index_or, cond, nat_lt, IfErr, IfOk, IsTrue};
ghost use Rattle.cilk_types.specs.declared.event.Event.TheVariants.{Read};
ghost use Rattle.cilk_tree.specs.declared.event_order.EventOrder.{EventOrder};
ghost use Rattle.cilk_tree.specs.Orders.{IsOrderly};
ghost use Rattle.cilk_tree.specs.Values.{HasValues};
ghost use Rattle.cilk_tree.specs.Runs.{IsFollowed};
ghost use Rattle.cilk_tree.specs.Word.{event, resume, word_step};
ghost use Rattle.cilk_tree.specs.Along.{IsAlong};
ghost use Rattle.cilk_tree.specs.Resumptions.{AreResumptions};
ghost use Rattle.cilk_shared.specs.Rows.{spanned};

use crate::key::EventOrderKey;
use crate::taken::{Denied, Taken};
use crate::view::View;
use crate::words::last_values;
use atomic_table::{Join, Play, Seat, Split, Table, TableRule};
use cilk_tree::along::event_orders_along_are_orderly;
use cilk_tree::plan::Plan;
use cilk_types::event::{Cell, Pos};
use cilk_types::input::Input;
use std::alloc::{AllocError, Global};
use std::marker::Model;

struct Words;

impl TableRule<(), View, EventOrderKey> for Words {
    ghost use Rattle.cilk_shared.specs.Rule.{view, Kept};

    ghost holds = { λ k t. Kept k.event_order t };

    ghost first = { λ k. view k.event_order 1 2 };
}

struct Loads;

impl Play<(), View> for Loads {
    ghost use Rattle.cilk_shared.specs.Rule.{loads};

    ghost then = { loads };
}

struct Stores;

impl Play<(), View> for Stores {
    ghost use Rattle.cilk_shared.specs.Rule.{stores};

    ghost then = { stores };
}

struct Takes;

impl Play<(), View> for Takes {
    ghost use Rattle.cilk_shared.specs.Rule.{takes};

    ghost then = { takes };
}

struct Ends;

impl Play<(), View> for Ends {
    ghost use Rattle.cilk_shared.specs.Rule.{ends};

    ghost then = { ends };
}

struct Halves;

impl Split<View> for Halves {
    ghost use Rattle.cilk_shared.specs.Rule.{beside};

    ghost left = { λ v. v };

    ghost right = { beside };
}

impl Join<View> for Halves {
    ghost use Rattle.cilk_shared.specs.Rule.{joined, spent};

    ghost both = { joined };

    ghost spent = { spent };
}

/// The words of a run, shared by its threads. Contracts see the run's event order, and which yard
/// it is.
pub struct Yard {
    table: Table<(), View, EventOrderKey, Words, Global>,
    cells: usize,
    resumptions: Vec<Pos>,
}

// A separate function, so that a proof follows one call where a yard is dropped.
impl Drop for Yard {
    fn drop(self) {
        let Yard {
            table: _table,
            cells: _,
            resumptions: _resumptions,
        } = self;
    }
}

impl Model for Yard {
    ghost use Rattle.std.specs.Prelude.{◌≡◌, ◌+◌, ◌^◌, ◌<◌, length};
    ghost use Rattle.cilk_tree.specs.Orders.{IsOrderly};
    ghost use Rattle.cilk_tree.specs.Values.{HasValues};
    ghost use Rattle.cilk_tree.specs.Resumptions.{AreResumptions};
    ghost use Rattle.cilk_shared.specs.Values.{SpawnsResume, YardValue};

    ghost Value = { YardValue };

    ghost view = { λ y. record { of = y.table.shared.table_id; event_order = y.table.shared.key.event_order } };

    ghost invariant = { λ y. IsOrderly y.table.shared.key.event_order × (0 < y.table.shared.table_id.words) × (y.table.shared.table_id.slots ≡ 0) × (y.table.shared.table_id.words ≡ length y.table.shared.key.event_order.opening + (length y.table.shared.key.event_order.events + 1)) × (y.cells ≡ length y.table.shared.key.event_order.opening) × (y.cells + length y.table.shared.key.event_order.events + 1 < 2 ^ 34) × HasValues y.table.shared.key.event_order × AreResumptions y.table.shared.key.event_order y.resumptions.items × SpawnsResume y.table.shared.key.event_order };
}

/// A range of the run's positions that one worker has done.
#[derive(Drop)]
pub struct Segment {
    seat: Seat<(), View>,
    from: Pos,
    upto: Pos,
}

impl Model for Segment {
    ghost use Rattle.std.specs.Prelude.{◌≡◌, []};
    ghost use Rattle.cilk_shared.specs.Rule.{Sits};
    ghost use Rattle.cilk_shared.specs.Values.{SegmentValue};

    ghost Value = { SegmentValue };

    ghost view = { λ g. record { of = g.seat.table_id; event_order = g.seat.me.0.event_order; from = g.from; upto = g.upto } };

    ghost invariant = { λ g. (g.seat.me.1 ≡ []) × Sits g.seat.me.0.event_order g.seat.me.0 g.from g.upto };
}

impl Yard {
    ghost use Rattle.cilk_shared.specs.Values.{AreLastValues, OfYard, NextRead, NextWrite, NextSpawn, NextFinish, CanTake, IsTaken, SpawnsResume, moved_on, empty_beside, Adjoin, both_of};

    /// Makes the words of a run along the plan on this input, and the segment of its first event.
    /// `along` gives the event order of the run on each input. As in each program, a frame that
    /// requests a spawn requests the `resume` after it.
    pub fn new(alloc: Global, plan: &Plan, input: &Input) -> Result<(Yard, Segment), AllocError>
        ghost along: { List ℤ → EventOrder }
        requires plan { IsAlong plan.now (along input.now) }
        requires values { HasValues (along input.now) }
        requires resumes { SpawnsResume (along input.now) }
        ensures event_order { IfOk result (λ r. r.0.event_order ≡ along input.now) }
        ensures segment { IfOk result (λ r. OfYard r.0 r.1 × (r.1.from ≡ 1) × (r.1.upto ≡ 2)) }
    {
        let column = plan.resumptions(alloc)?;
        Yard::with_resumptions(alloc, plan, input, column)
    }

    /// The same, where `column` gives the position at which each continuation is resumed.
    pub fn with_resumptions(
        alloc: Global,
        plan: &Plan,
        input: &Input,
        column: Vec<Pos>,
    ) -> Result<(Yard, Segment), AllocError>
        ghost along: { List ℤ → EventOrder }
        requires plan { IsAlong plan.now (along input.now) }
        requires values { HasValues (along input.now) }
        requires resumes { SpawnsResume (along input.now) }
        requires column { AreResumptions plan.now column.items }
        ensures event_order { IfOk result (λ r. r.0.event_order ≡ along input.now) }
        ensures segment { IfOk result (λ r. OfYard r.0 r.1 × (r.1.from ≡ 1) × (r.1.upto ≡ 2)) }
    {
        plan.laws();
        let cells = plan.opening().len();
        let key = EventOrderKey::of(input);
        let (table, seat) = Table::of_words(alloc, plan.first_words(), &key)?;
        let yard = Yard {
            table,
            cells,
            resumptions: column,
        };
        let segment = Segment {
            seat,
            from: 1,
            upto: 2,
        };
        Ok((yard, segment))
    }

    /// The laws that the run's event order obeys.
    pub fn laws(&self)
        ensures order { IsOrderly self.now.event_order }
        ensures values { HasValues self.now.event_order }
    {
        let _cells = self.cells;
    }

    /// Loads the cell, as the segment's next event does: returns the value of that read in the
    /// run's event order.
    pub fn load(&self, segment: &mut Segment, cell: Cell) -> i64
        requires yard { OfYard self.now segment.old }
        requires next { NextRead self.now segment.old cell }
        ensures segment { segment.new ≡ moved_on segment.old }
        ensures value { event self.now.event_order segment.old.upto ≡ Some (Read cell result) }
    {
        let found = self
            .table
            .shared
            .load::<Loads>(&mut segment.seat, cell as usize);
        segment.upto += 1;
        found.cast_signed()
    }

    /// Stores the value in the cell, as the segment's next event does.
    pub fn store(&self, segment: &mut Segment, cell: Cell, value: i64)
        requires yard { OfYard self.now segment.old }
        requires next { NextWrite self.now segment.old cell value }
        ensures { segment.new ≡ moved_on segment.old }
    {
        let word = value.cast_unsigned();
        self.table
            .shared
            .store::<Stores>(&mut segment.seat, cell as usize, word);
        segment.upto += 1;
    }

    /// Offers the continuation of the spawn that is the segment's next event, so that any thread
    /// may take it. Returns its ticket, the spawn's position.
    pub fn offer(&self, segment: &mut Segment) -> Pos
        requires yard { OfYard self.now segment.old }
        requires next { NextSpawn self.now segment.old }
        ensures segment { segment.new ≡ moved_on segment.old }
        ensures ticket { result ≡ segment.old.upto }
    {
        let ticket = segment.upto;
        self.table
            .shared
            .store::<Stores>(&mut segment.seat, self.cells + ticket as usize, 1);
        segment.upto += 1;
        ticket
    }

    /// Takes the continuation of the spawn at `ticket`, unless it was taken. On success the segment
    /// continues with its `resume`. Nothing is taken if the plan has no spawn there.
    pub fn take(&self, segment: &mut Segment, ticket: Pos) -> Taken
        requires yard { OfYard self.now segment.old }
        requires next { CanTake self.now segment.old ticket }
        ensures { IsTaken self.now segment.old ticket segment.new result }
    {
        let Some(at) = self.resumption(ticket) else {
            return Taken::No(Denied::of(ticket));
        };
        let found = self
            .table
            .shared
            .compare_exchange::<Takes>(&mut segment.seat, self.cells + ticket as usize, 1, 2);
        if found != 1 {
            return Taken::No(Denied::of(ticket));
        }
        segment.from = start(segment.from, segment.upto, at);
        segment.upto = at + 1;
        Taken::Yes
    }

    /// Returns the position of the `resume` after the spawn at `ticket`, or `None` if the plan has
    /// no spawn there.
    pub fn resumption(&self, ticket: Pos) -> Option<Pos>
        ensures { (p : ℕ) → (result ≡ Some p) ↔ (word_step self.now.event_order p ≡ resume ticket) }
    {
        let at = entry(self.resumptions.as_slice(), ticket as usize);
        if at == 0 { None } else { Some(at) }
    }

    /// Ends the run: the segment's next event is the root's `end`.
    pub fn finish(&self, segment: &mut Segment)
        requires yard { OfYard self.now segment.old }
        requires next { NextFinish self.now segment.old }
        ensures { segment.new ≡ moved_on segment.old }
    {
        self.table
            .shared
            .store::<Stores>(&mut segment.seat, self.cells, 1);
        segment.upto += 1;
    }

    /// Returns whether the run is seen to have ended. A thread may see the end late. If true, the
    /// frames requested each event of the run.
    pub fn ended(&self, segment: &mut Segment) -> bool
        requires { OfYard self.now segment.old }
        ensures segment { segment.new ≡ segment.old }
        ensures whole { IsTrue result → IsFollowed self.now.event_order (length self.now.event_order.events) }
    {
        let found = self
            .table
            .shared
            .load::<Ends>(&mut segment.seat, self.cells);
        found == 1
    }

    /// Returns the segment unchanged, and an empty segment.
    pub fn apart(&self, segment: Segment) -> (Segment, Segment)
        requires { OfYard self.now segment }
        ensures first { result.0 ≡ segment }
        ensures second { result.1 ≡ empty_beside segment }
    {
        let Segment {
            mut seat,
            from,
            upto,
        } = segment;
        let other = self.table.shared.split_seat::<Halves>(&mut seat);
        (
            Segment { seat, from, upto },
            Segment {
                seat: other,
                from: 0,
                upto: 0,
            },
        )
    }

    /// Makes one segment of two that adjoin.
    pub fn together(&self, first: Segment, second: Segment) -> Segment
        requires yard { OfYard self.now first × OfYard self.now second }
        requires near { Adjoin first second }
        ensures { result ≡ both_of first second }
    {
        let Segment {
            mut seat,
            from,
            upto,
        } = first;
        let Segment {
            seat: other,
            from: begin,
            upto: end,
        } = second;
        self.table.shared.join_seat::<Halves>(&mut seat, other);
        let range = span(from, upto, begin, end);
        Segment {
            seat,
            from: range.0,
            upto: range.1,
        }
    }

    /// Returns the values of the global cells after the whole run, which the segment covers.
    /// `count` is the number of the program's global cells, which come before those of frames. If
    /// memory runs out, the yard and the segment come back.
    pub fn globals(
        self,
        alloc: Global,
        segment: Segment,
        count: usize,
    ) -> Result<Vec<i64>, (Yard, Segment)>
        requires yard { OfYard self segment }
        requires all { (segment.from ≡ 1) × (segment.upto ≡ length self.event_order.events + 1) }
        requires count { count ≤ length self.event_order.opening }
        ensures ok { IfOk result (λ v. AreLastValues self.event_order count v.items) }
        ensures err { IfErr result (λ r. (r.0 ≡ self) × (r.1 ≡ segment)) }
    {
        let Ok(values) = Vec::with_capacity(alloc, count) else {
            return Err((self, segment));
        };
        let Yard {
            table,
            cells: _,
            resumptions: _,
        } = self;
        let Segment {
            seat,
            from: _,
            upto: _,
        } = segment;
        let closed = table.close_with(seat);
        let values = last_values(&closed, count, values);
        closed.free();
        Ok(values)
    }

    /// Returns whether [`Yard::together`] may be called.
    pub fn adjoins(&self, first: &Segment, second: &Segment) -> bool
        ensures { IsTrue result ↔ Adjoin first.now second.now }
    {
        first.from >= first.upto || second.from >= second.upto || first.upto == second.from
    }
}

// The entry of a column at a place; 0 past its end.
fn entry(column: &[Pos], place: usize) -> Pos
    ensures { result ≡ slice_index_or column.now place 0 }
{
    match column.get(place) {
        Some(at) => *at,
        None => 0,
    }
}

// The start of a segment that continues at `at`.
fn start(from: Pos, upto: Pos, at: Pos) -> Pos
    ensures { result ≡ cond (nat_lt from upto) from at }
{
    if from < upto { from } else { at }
}

// The union of two ranges that adjoin.
fn span(from: Pos, upto: Pos, begin: Pos, end: Pos) -> (Pos, Pos)
    ensures { result ≡ spanned from upto begin end }
{
    if from < upto {
        if begin < end {
            (from, end)
        } else {
            (from, upto)
        }
    } else {
        (begin, end)
    }
}

impl Segment {
    ghost use Rattle.cilk_tree.specs.Runs.{IsAsked, IsFollowed, Departs};
    ghost use Rattle.cilk_tree.specs.Word.{event};
    ghost use Rattle.std.specs.Prelude.{◌≢◌, ◌-◌};
    ghost use Rattle.cilk_types.specs.declared.event.Event.TheVariants.{Sync};
    ghost use Rattle.cilk_shared.specs.Values.{OfYard, CanPass, MayPass, HoldsPreceding, IsAhead, moved_on};

    /// Adds the next event, which is no step on a shared word.
    pub fn pass(&mut self, plan: &Plan)
        requires plan { IsAlong plan.now self.old.event_order }
        requires next { CanPass self.old }
        ensures { self.new ≡ moved_on self.old }
    {
        plan.laws();
        event_orders_along_are_orderly();
        self.upto += 1;
    }

    // The same for the pieces of a yard, which is made along a plan.
    pub(crate) fn grow(&mut self, yard: &Yard)
        requires yard { OfYard yard.now self.old }
        requires next { CanPass self.old }
        ensures { self.new ≡ moved_on self.old }
    {
        yard.laws();
        let Segment { upto, .. } = self;
        *upto += 1;
    }

    /// Returns the first position, if the segment has events.
    pub fn from(&self) -> Pos
        ensures { result ≡ self.now.from }
    {
        self.from
    }

    /// Returns the last position, or 0 if the segment is empty.
    pub fn last(&self) -> Pos
        ensures none { self.now.upto ≤ self.now.from → result ≡ 0 }
        ensures some { self.now.from < self.now.upto → result + 1 ≡ self.now.upto }
    {
        if self.from < self.upto {
            self.upto - 1
        } else {
            0
        }
    }

    /// Returns the position after the last one, which is that of the next event.
    pub fn upto(&self) -> Pos
        ensures { result ≡ self.now.upto }
    {
        let Segment { upto, .. } = self;
        *upto
    }

    /// Returns whether the immediate predecessors of the next event are in the segment, as
    /// [`Segment::pass`] requires. Those of a `sync` are the event before it and the `end`s of the
    /// children spawned in its block.
    pub fn holds_preceding(&self, plan: &Plan) -> bool
        requires { IsAlong plan.now self.now.event_order }
        ensures { IsTrue result ↔ HoldsPreceding self.now }
    {
        match plan.earliest_before(self.upto) {
            None => true,
            Some(first) => self.from <= first,
        }
    }

    /// Returns whether [`Segment::pass`] may be called if the frame requests the next event: there
    /// is one, it is no step on a shared word, and its immediate predecessors are in the segment.
    pub fn may_pass(&self, plan: &Plan) -> bool
        requires { IsAlong plan.now self.now.event_order }
        ensures { IsTrue result ↔ MayPass self.now }
    {
        if self.from >= self.upto {
            return false;
        }
        if self.upto as usize > plan.count() {
            return false;
        }
        if plan.is_word(self.upto) {
            return false;
        }
        self.holds_preceding(plan)
    }

    /// A law: the frames request the segment's last event and each event before it.
    pub fn has_followed(&self)
        requires { self.now.from < self.now.upto }
        ensures { IsFollowed self.now.event_order (self.now.upto - 1) }
    {
        let _from = self.from;
    }

    /// A law: if the frame requests the next event and that is no `sync`, the frames also request
    /// each event before it.
    pub fn follows(&self, yard: &Yard)
        requires yard { OfYard yard.now self.now }
        requires next { IsAhead self.now }
        requires sync { event self.now.event_order self.now.upto ≢ Some Sync }
        requires asked { IsAsked self.now.event_order self.now.upto }
        ensures { IsFollowed self.now.event_order self.now.upto }
    {
        yard.laws();
        let _from = self.from;
    }

    /// Returns the position at which the run departs from the plan: that of the next event, which
    /// the frame doesn't request.
    pub fn departs(&self, yard: &Yard) -> Pos
        requires yard { OfYard yard.now self.now }
        requires next { IsAhead self.now }
        requires within { self.now.upto ≤ length self.now.event_order.events }
        requires differs { IsAsked self.now.event_order self.now.upto → ⊥ }
        ensures place { result ≡ self.now.upto }
        ensures departs { Departs self.now.event_order result }
    {
        yard.laws();
        let place = self.upto;
        place
    }
}
