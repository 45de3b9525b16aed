//! The effect of single instructions on a frame's cursor.

ghost use Rattle.std.specs.Prelude.{◌≡◌, ◌≢◌, ◌+◌, ◌<◌, ◌≤◌, ◌^◌, ◌∷◌, [], if◌then◌else◌, int_lt, length, suc, ℕ, false};
ghost use Rattle.cilk_types.specs.declared.fault.Fault.TheVariants.{DivisionByZero, IndexOutside};
ghost use Rattle.cilk_program.specs.Operators.{apply};
ghost use Rattle.cilk_program.specs.Syntax.{element};
ghost use Rattle.cilk_program.specs.declared.ask.Callee.TheVariants as callees;
ghost use Rattle.cilk_program.specs.declared.ask.Ask.TheVariants as asks;
ghost use Rattle.cilk_lower.specs.Code.{CodeView};
ghost use Rattle.cilk_lower.specs.declared.code.Owed.TheVariants.{Nothing, Word};
ghost use Rattle.cilk_lower.specs.Machine.{Goes, Stuck, Waits, loop_called, on_none, on_top, on_two, or_stops, ticked};
ghost use Rattle.cilk_frames.specs.AskSlot.{in_full};
ghost use Rattle.cilk_frames.specs.declared.small_ask.SmallAsk.TheVariants as small_asks;
ghost use Rattle.cilk_frames.specs.Moving.{IsGoing, TakesTick, moved};

use crate::cursor::Cursor;
use crate::operators::{apply, element};
use crate::small_ask::SmallAsk;
use cilk_lower::code::Owed;
use cilk_program::ask::LoopPart;
use cilk_program::syntax::{Array, Operator, Place};
use cilk_types::fault::Fault;
use cilk_types::invocation::Invocation;

/// The effect of an instruction: it continues, makes a request and waits, makes the last request,
/// or invokes the function of a call site, whose words are still on the stack.
#[derive(Clone, Copy)]
pub enum Moved {
    Goes,
    Waits(SmallAsk),
    Stops(SmallAsk),
    Invokes(usize),
}

/// Makes a request, and continues with the next instruction after the answer.
#[inline(always)]
pub(crate) fn wait(cursor: &mut Cursor, ask: SmallAsk, owed: Owed) -> Moved
    requires { cursor.old.place < 2 ^ 63 }
    ensures moved { result ≡ Moved.Waits ask }
    ensures cursor { cursor.new ≡ record cursor.old { place = cursor.old.place + 1; owed = owed } }
{
    cursor.wait(owed);
    Moved::Waits(ask)
}

/// Makes the last request.
#[inline]
pub(crate) fn stop(ask: SmallAsk) -> Moved
    ensures moved { result ≡ Moved.Stops ask }
{
    Moved::Stops(ask)
}

/// Pushes a value without a tick.
#[inline(always)]
pub(crate) fn put(cursor: &mut Cursor, word: i64) -> Moved
    requires room { length cursor.old.stack < cursor.old.room }
    requires small { cursor.old.place < 2 ^ 63 }
    ensures moved { result ≡ Moved.Goes }
    ensures cursor { cursor.new ≡ record cursor.old { place = cursor.old.place + 1; stack = word ∷ cursor.old.stack } }
{
    cursor.push(word);
    cursor.next();
    Moved::Goes
}

/// Begins a statement, for one tick.
#[inline(always)]
pub(crate) fn tick(cursor: &mut Cursor, left: &mut u32) -> Moved
    requires { cursor.old.place < 2 ^ 63 }
    ensures moves { (code : CodeView) → ticked left.old (Goes (cursor.old.place + 1) cursor.old.stack cursor.old.held)
        ≡ moved code result cursor.new left.new }
    ensures room { cursor.new.room ≡ cursor.old.room }
    ensures given { cursor.new.given ≡ cursor.old.given }
    ensures falls { IsGoing result → left.old ≡ suc left.new }
{
    if !take_tick(left) {
        return stop(SmallAsk::Fault(Fault::TooManyEvents));
    }
    cursor.next();
    Moved::Goes
}

/// Requests a value, for one tick.
#[inline(always)]
pub(crate) fn load(cursor: &mut Cursor, ask: SmallAsk, left: &mut u32) -> Moved
    requires { cursor.old.place < 2 ^ 63 }
    ensures moves { (code : CodeView) → ticked left.old
        (Waits (in_full ask) Word (cursor.old.place + 1) cursor.old.stack cursor.old.held)
        ≡ moved code result cursor.new left.new }
    ensures room { cursor.new.room ≡ cursor.old.room }
    ensures given { cursor.new.given ≡ cursor.old.given }
    ensures asks { IsGoing result → ⊥ }
{
    if !take_tick(left) {
        return stop(SmallAsk::Fault(Fault::TooManyEvents));
    }
    wait(cursor, ask, Owed::Word)
}

/// Checks an index and requests that element of an array, for one tick.
#[inline]
pub(crate) fn load_element(cursor: &mut Cursor, array: Array, left: &mut u32) -> Moved
    requires index { cursor.old.stack ≢ [] }
    requires array { array.first + array.length ≤ 2 ^ 32 }
    requires small { cursor.old.place < 2 ^ 63 }
    ensures moves { (code : CodeView) → on_top cursor.old.stack (λ i rest. or_stops IndexOutside
        (element array i) left.old (λ x. ticked left.old
        (Waits (asks.Read x) Word (cursor.old.place + 1) rest cursor.old.held)))
        ≡ moved code result cursor.new left.new }
    ensures room { cursor.new.room ≡ cursor.old.room }
    ensures given { cursor.new.given ≡ cursor.old.given }
    ensures asks { IsGoing result → ⊥ }
{
    let index = cursor.pop();
    match element(array, index) {
        Some(place) => load(cursor, SmallAsk::Read(place), left),
        None => stop(SmallAsk::Fault(Fault::IndexOutside)),
    }
}

/// Checks an index and requests that element of an array. The index stays on the stack.
#[inline]
pub(crate) fn fetch_element(cursor: &mut Cursor, array: Array) -> Moved
    requires index { cursor.old.stack ≢ [] }
    requires array { array.first + array.length ≤ 2 ^ 32 }
    requires small { cursor.old.place < 2 ^ 63 }
    ensures moves { (code : CodeView) (left : ℕ) → on_top cursor.old.stack (λ i rest. or_stops IndexOutside
        (element array i) left (λ x. Waits (asks.Read x) Word (cursor.old.place + 1) (i ∷ rest) cursor.old.held left))
        ≡ moved code result cursor.new left }
    ensures room { cursor.new.room ≡ cursor.old.room }
    ensures given { cursor.new.given ≡ cursor.old.given }
    ensures asks { IsGoing result → ⊥ }
{
    let index = cursor.pop();
    cursor.push(index);
    match element(array, index) {
        Some(place) => wait(cursor, SmallAsk::Read(place), Owed::Word),
        None => stop(SmallAsk::Fault(Fault::IndexOutside)),
    }
}

/// Requests the write of a word to a cell.
#[inline(always)]
pub(crate) fn store(cursor: &mut Cursor, place: Place, word: i64) -> Moved
    requires { cursor.old.place < 2 ^ 63 }
    ensures moved { result ≡ Moved.Waits (small_asks.Write place word) }
    ensures cursor { cursor.new ≡ record cursor.old { place = cursor.old.place + 1; owed = Nothing } }
{
    wait(cursor, SmallAsk::Write(place, word), Owed::Nothing)
}

/// Checks an index and requests the write of a word to that element of an array.
#[inline]
pub(crate) fn store_element(cursor: &mut Cursor, array: Array) -> Moved
    requires operands { on_two cursor.old.stack (λ i v rest. Goes 0 rest v 0) ≢ Stuck }
    requires array { array.first + array.length ≤ 2 ^ 32 }
    requires small { cursor.old.place < 2 ^ 63 }
    ensures moves { (code : CodeView) (left : ℕ) → on_two cursor.old.stack (λ i v rest. or_stops IndexOutside
        (element array i) left (λ x. Waits (asks.Write x v) Nothing (cursor.old.place + 1) rest cursor.old.held left))
        ≡ moved code result cursor.new left }
    ensures room { cursor.new.room ≡ cursor.old.room }
    ensures given { cursor.new.given ≡ cursor.old.given }
    ensures asks { IsGoing result → ⊥ }
{
    let word = cursor.pop();
    let index = cursor.pop();
    match element(array, index) {
        Some(place) => store(cursor, place, word),
        None => stop(SmallAsk::Fault(Fault::IndexOutside)),
    }
}

/// Calls the frame of a parallel loop. If the loop has no turns, skips the `Resume` after the call.
#[inline]
pub(crate) fn call_loop(cursor: &mut Cursor, number: u32) -> Moved
    requires operands { on_two cursor.old.stack (λ low high rest. on_none rest (Goes 0 [] low 0)) ≢ Stuck }
    requires small { cursor.old.place < 2 ^ 63 }
    ensures moves { (code : CodeView) (left : ℕ) → on_two cursor.old.stack (λ low high rest. on_none rest
        (if int_lt low high then Waits (loop_called number low high) Nothing (cursor.old.place + 1) [] cursor.old.held
        left else Goes (cursor.old.place + 2) [] cursor.old.held left))
        ≡ moved code result cursor.new left }
    ensures room { cursor.new.room ≡ cursor.old.room }
    ensures given { cursor.new.given ≡ cursor.old.given }
    ensures onward { cursor.old.place < cursor.new.place }
{
    let high = cursor.pop();
    let low = cursor.pop();
    cursor.no_operand_waits();
    if low < high {
        let turns = LoopPart {
            number,
            up: 0,
            low,
            high,
        };
        return invoke_turns(cursor, Invocation::Call, turns);
    }
    cursor.pass_next();
    Moved::Goes
}

/// Invokes the frame of some turns of a loop.
#[inline]
pub(crate) fn invoke_turns(cursor: &mut Cursor, how: Invocation, turns: LoopPart) -> Moved
    requires { cursor.old.place < 2 ^ 63 }
    ensures moved { result ≡ Moved.Waits (small_asks.Turns how turns) }
    ensures cursor { cursor.new ≡ record cursor.old { place = cursor.old.place + 1; owed = Nothing } }
{
    wait(cursor, SmallAsk::Turns(how, turns), Owed::Nothing)
}

/// Skips `count` instructions if `skips` is true. Continues after them or with the next one.
#[inline(always)]
pub(crate) fn skip_if(cursor: &mut Cursor, skips: bool, count: usize) -> Moved
    requires { cursor.old.place + 1 + count < 2 ^ 64 }
    ensures moved { result ≡ Moved.Goes }
    ensures cursor { cursor.new ≡ record cursor.old
        { place = if skips then cursor.old.place + 1 + count else cursor.old.place + 1 } }
{
    if skips {
        cursor.skip(count);
    } else {
        cursor.next();
    }
    Moved::Goes
}

/// Gives the frame's result to the caller, if the caller takes one.
#[inline]
pub(crate) fn give_result(cursor: &mut Cursor) -> Moved
    requires { cursor.old.place < 2 ^ 63 }
    ensures moves { (code : CodeView) (left : ℕ) → (if cursor.old.given.takes
        then Waits (asks.Result cursor.old.held) Nothing (cursor.old.place + 1) cursor.old.stack cursor.old.held left
        else Goes (cursor.old.place + 1) cursor.old.stack cursor.old.held left)
        ≡ moved code result cursor.new left }
    ensures room { cursor.new.room ≡ cursor.old.room }
    ensures given { cursor.new.given ≡ cursor.old.given }
    ensures onward { cursor.new.place ≡ cursor.old.place + 1 }
{
    if cursor.gives_result() {
        let word = cursor.held();
        return wait(cursor, SmallAsk::Result(word), Owed::Nothing);
    }
    cursor.next();
    Moved::Goes
}

/// Pushes a value, for one tick.
#[inline(always)]
pub(crate) fn give(cursor: &mut Cursor, word: i64, left: &mut u32) -> Moved
    requires room { length cursor.old.stack < cursor.old.room }
    requires small { cursor.old.place < 2 ^ 63 }
    ensures moves { (code : CodeView) → ticked left.old
        (Goes (cursor.old.place + 1) (word ∷ cursor.old.stack) cursor.old.held)
        ≡ moved code result cursor.new left.new }
    ensures room { cursor.new.room ≡ cursor.old.room }
    ensures given { cursor.new.given ≡ cursor.old.given }
    ensures falls { IsGoing result → left.old ≡ suc left.new }
{
    if !take_tick(left) {
        return stop(SmallAsk::Fault(Fault::TooManyEvents));
    }
    put(cursor, word)
}

/// Pushes a value that has passed its check, for one tick. Stops by `fault` if there is none.
#[inline]
pub(crate) fn give_checked(
    cursor: &mut Cursor,
    word: Option<i64>,
    fault: Fault,
    left: &mut u32,
) -> Moved
    requires room { length cursor.old.stack < cursor.old.room }
    requires small { cursor.old.place < 2 ^ 63 }
    ensures moves { (code : CodeView) → or_stops fault word left.old (λ v. ticked left.old
        (Goes (cursor.old.place + 1) (v ∷ cursor.old.stack) cursor.old.held))
        ≡ moved code result cursor.new left.new }
    ensures room { cursor.new.room ≡ cursor.old.room }
    ensures given { cursor.new.given ≡ cursor.old.given }
    ensures falls { IsGoing result → left.old ≡ suc left.new }
{
    match word {
        Some(word) => give(cursor, word, left),
        None => stop(SmallAsk::Fault(fault)),
    }
}

/// Applies an operator to the operand on top and a number, for one tick, after one for the number.
/// Skips the `Apply` that follows, and stops there if the operator has a fault.
#[inline]
pub(crate) fn apply_number(
    cursor: &mut Cursor,
    operator: Operator,
    number: i64,
    left: &mut u32,
) -> Moved
    requires operand { cursor.old.stack ≢ [] }
    requires small { cursor.old.place + 1 < 2 ^ 63 }
    ensures moves { (code : CodeView) → on_top cursor.old.stack (λ x rest. ticked left.old (λ left. or_stops
        DivisionByZero (apply operator x number) left (λ v. ticked left
        (Goes (cursor.old.place + 2) (v ∷ rest) cursor.old.held))))
        ≡ moved code result cursor.new left.new }
    ensures room { cursor.new.room ≡ cursor.old.room }
    ensures given { cursor.new.given ≡ cursor.old.given }
    ensures falls { IsGoing result → left.old ≡ suc (suc left.new) }
{
    if !take_tick(left) {
        return stop(SmallAsk::Fault(Fault::TooManyEvents));
    }
    cursor.next();
    let x = cursor.pop();
    let word = apply(operator, x, number);
    give_checked(cursor, word, Fault::DivisionByZero, left)
}

/// Pushes a word, for a tick that is there.
#[inline(always)]
pub(crate) fn put_counted(cursor: &mut Cursor, word: i64, left: &mut u32)
    requires room { length cursor.old.stack < cursor.old.room }
    requires tick { 0 < left.old }
    requires small { cursor.old.place < 2 ^ 63 }
    ensures cursor { cursor.new ≡ record cursor.old { place = cursor.old.place + 1; stack = word ∷ cursor.old.stack } }
    ensures left { left.old ≡ suc left.new }
{
    *left -= 1;
    cursor.push(word);
    cursor.next();
}

/// Pushes the result of an operator and a number, for two ticks that are there. Skips the `Apply`
/// that follows.
#[inline(always)]
pub(crate) fn put_past_next(cursor: &mut Cursor, word: i64, left: &mut u32)
    requires room { length cursor.old.stack < cursor.old.room }
    requires ticks { 1 < left.old }
    requires small { cursor.old.place + 1 < 2 ^ 63 }
    ensures cursor { cursor.new ≡ record cursor.old { place = cursor.old.place + 2; stack = word ∷ cursor.old.stack } }
    ensures left { left.old ≡ suc (suc left.new) }
{
    *left -= 2;
    cursor.push(word);
    cursor.pass_next();
}

/// Puts back an operand that was popped. Returns false.
#[inline(always)]
pub(crate) fn put_back(cursor: &mut Cursor, x: i64) -> bool
    requires { length cursor.old.stack < cursor.old.room }
    ensures done { result ≡ false }
    ensures cursor { cursor.new ≡ record cursor.old { stack = x ∷ cursor.old.stack } }
{
    cursor.push(x);
    false
}

/// Puts back two operands that were popped. Returns false.
#[inline(always)]
pub(crate) fn put_back_two(cursor: &mut Cursor, x: i64, y: i64) -> bool
    requires { suc (length cursor.old.stack) < cursor.old.room }
    ensures done { result ≡ false }
    ensures cursor { cursor.new ≡ record cursor.old { stack = y ∷ (x ∷ cursor.old.stack) } }
{
    cursor.push(x);
    cursor.push(y);
    false
}

// Uses one tick. Returns false if none is left.
#[inline(always)]
fn take_tick(left: &mut u32) -> bool
    ensures { TakesTick left.old result left.new }
{
    if *left == 0 {
        return false;
    }
    *left -= 1;
    true
}
