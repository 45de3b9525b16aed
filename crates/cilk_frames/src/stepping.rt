//! Runs a frame from one request to the next.

ghost use Rattle.std.specs.Prelude.{◌≡◌, ◌≢◌, ◌<◌, ℕ, ℤ, List, true, false};
ghost use Rattle.cilk_program.specs.Syntax.{Source};
ghost use Rattle.cilk_program.specs.declared.ask.Callee.{Callee};
ghost use Rattle.cilk_lower.specs.Machine.{Goes, Stuck, Waits};
ghost use Rattle.cilk_frames.specs.Following.{Fits, GoesOn, Runs, Stands, Steps};
ghost use Rattle.cilk_frames.specs.Moving.{IsGoing, effort, invoking, move_at, moved};

use crate::asked::AskSlot;
use crate::cursor::{Answer, Cursor};
use crate::halves::{first_half, is_single, second_half};
use crate::moves::{
    Moved, apply_number, call_loop, fetch_element, give, give_checked, give_result, invoke_turns,
    load, load_element, put, put_back, put_back_two, put_counted, put_past_next, skip_if, stop,
    store, store_element, tick, wait,
};
use crate::operators::{apply, change, negation, truth};
use crate::small_ask::SmallAsk;
use cilk_lower::code::{Code, Instr, Owed};
use cilk_program::ask::Ask;
use cilk_program::syntax::Place;
use cilk_types::fault::Fault;
use cilk_types::input::Input;
use cilk_types::invocation::Invocation;
use cilk_types::word;

/// Runs a frame from an answer to its next request, which it returns. `left` is the run's remaining
/// ticks, and the step subtracts those that the frame uses. It allocates nothing and always ends.
///
/// It returns the request by value. A caller that runs many frames keeps one slot for requests and
/// uses [`step_into`].
pub fn step(code: &Code, input: &Input, cursor: &mut Cursor, answer: Answer, left: &mut u32) -> Ask
    requires runs { Runs code.now input.now cursor.old }
    requires fits { Fits cursor.old.owed answer }
    ensures follows { Steps code.now input.now cursor.old answer left.old result cursor.new left.new }
    ensures stands { (p : Source) (callee : Callee) (history : List ℤ) (took : ℕ) → Stands code.now input.now p callee cursor.old history took → GoesOn code.now input.now cursor.old answer left.old result cursor.new left.new p callee history took }
{
    let mut asked = AskSlot::new();
    step_into(code, input, cursor, answer, left, &mut asked);
    asked.in_full()
}

/// Runs a frame as [`step`] does, but stores the request in the caller's slot.
#[inline(always)]
pub fn step_into(
    code: &Code,
    input: &Input,
    cursor: &mut Cursor,
    answer: Answer,
    left: &mut u32,
    asked: &mut AskSlot,
)
    requires runs { Runs code.now input.now cursor.old }
    requires fits { Fits cursor.old.owed answer }
    ensures follows { Steps code.now input.now cursor.old answer left.old asked.new cursor.new left.new }
    ensures stands { (p : Source) (callee : Callee) (history : List ℤ) (took : ℕ) → Stands code.now input.now p callee cursor.old history took → GoesOn code.now input.now cursor.old answer left.old asked.new cursor.new left.new p callee history took }
{
    // A local copy, so that it stays in a register.
    let mut ticks = *left;
    go_on(code, input, cursor, answer, &mut ticks, asked);
    *left = ticks;
}

// Executes instructions until one makes a request.
#[inline(always)]
fn go_on(
    code: &Code,
    input: &Input,
    cursor: &mut Cursor,
    answer: Answer,
    left: &mut u32,
    asked: &mut AskSlot,
)
    requires runs { Runs code.now input.now cursor.old }
    requires fits { Fits cursor.old.owed answer }
    ensures follows { Steps code.now input.now cursor.old answer left.old asked.new cursor.new left.new }
    ensures stands { (p : Source) (callee : Callee) (history : List ℤ) (took : ℕ) → Stands code.now input.now p callee cursor.old history took → GoesOn code.now input.now cursor.old answer left.old asked.new cursor.new left.new p callee history took }
{
    cursor.receive(answer);
    let instrs = code.instrs();
    'each: loop {
        if exec_plain(code, instrs, cursor, left) {
            continue 'each;
        }
        match exec_instr(code, instrs, input, cursor, left) {
            Moved::Goes => {}
            Moved::Waits(ask) => return asked.put(ask),
            Moved::Stops(ask) => return asked.put(ask),
            Moved::Invokes(number) => return invoke(code, cursor, number, asked),
        }
    }
}

/// Executes one instruction if it makes no request, is a common one, has the ticks that it uses, and
/// no fault. Returns false otherwise, and changes nothing. `instrs` are those of the code.
#[inline(always)]
#[tactic(auto, using(crate::proofs::Effort::effort_back, crate::proofs::Effort::effort_again))]
pub fn exec_plain(code: &Code, instrs: &[Instr], cursor: &mut Cursor, left: &mut u32) -> bool
    requires instrs { instrs.now ≡ code.now.instrs }
    requires moves { (inputs : List ℤ) × (move_at code.now inputs cursor.old left.old ≢ Stuck) }
    ensures moves { (inputs : List ℤ) → result ≡ true → move_at code.now inputs cursor.old left.old ≡ Goes cursor.new.place cursor.new.stack cursor.new.held left.new }
    ensures room { cursor.new.room ≡ cursor.old.room }
    ensures given { cursor.new.given ≡ cursor.old.given }
    ensures falls { result ≡ true → effort code.now.instrs cursor.new.place left.new < effort code.now.instrs cursor.old.place left.old }
    ensures stays { result ≡ false → (cursor.new ≡ cursor.old) × (left.new ≡ left.old) }
{
    match code.at(instrs, cursor.place()) {
        Instr::Tick if *left > 0 => {
            *left -= 1;
            cursor.next();
        }
        Instr::Push(word) if *left > 0 => put_counted(cursor, *word, left),
        Instr::Apply(operator) if *left > 0 => {
            let (x, y) = cursor.pop_two();
            let Some(word) = apply(*operator, x, y) else {
                return put_back_two(cursor, x, y);
            };
            put_counted(cursor, word, left);
        }
        Instr::JumpIfZero(count) => match cursor.pop() {
            0 => cursor.skip(*count),
            _ => cursor.next(),
        },
        Instr::ApplyNumber(operator, number) if *left > 1 => {
            let x = cursor.pop();
            let Some(word) = apply(*operator, x, *number) else {
                return put_back(cursor, x);
            };
            put_past_next(cursor, word, left);
        }
        Instr::JumpBack(count) => cursor.go_back(*count),
        Instr::JumpBackUnlessZero(count) => match cursor.pop() {
            0 => cursor.next(),
            _ => cursor.go_back(*count),
        },
        _ => return false,
    }
    true
}

/// Executes one instruction. `instrs` are those of the code.
#[inline(always)]
#[tactic(auto, using(crate::proofs::Effort::effort_back, crate::proofs::Effort::effort_again))]
pub fn exec_instr(
    code: &Code,
    instrs: &[Instr],
    input: &Input,
    cursor: &mut Cursor,
    left: &mut u32,
) -> Moved
    requires instrs { instrs.now ≡ code.now.instrs }
    requires moves { move_at code.now input.now cursor.old left.old ≢ Stuck }
    ensures moves { move_at code.now input.now cursor.old left.old ≡ moved code.now result cursor.new left.new }
    ensures room { cursor.new.room ≡ cursor.old.room }
    ensures given { cursor.new.given ≡ cursor.old.given }
    ensures falls { IsGoing result → effort code.now.instrs cursor.new.place left.new < effort code.now.instrs cursor.old.place left.old }
{
    match code.at(instrs, cursor.place()) {
        Instr::Tick => tick(cursor, left),
        Instr::Push(word) => give(cursor, *word, left),
        Instr::Load(place) => load(cursor, SmallAsk::Read(*place), left),
        Instr::LoadElement(array) => load_element(cursor, *array, left),
        Instr::LoadUncounted(place) => wait(cursor, SmallAsk::Read(*place), Owed::Word),
        Instr::FetchElement(array) => fetch_element(cursor, *array),
        Instr::Store(place) => {
            let word = cursor.pop();
            store(cursor, *place, word)
        }
        Instr::StoreElement(array) => store_element(cursor, *array),
        Instr::Zero(number) => store(cursor, Place::Local(0, *number), 0),
        Instr::Combine(operator) => {
            let y = cursor.pop();
            let x = cursor.pop();
            put(cursor, change(*operator, x, y))
        }
        Instr::AddNumber(number) => {
            let x = cursor.pop();
            put(cursor, word::add(x, *number))
        }
        Instr::Negate => {
            let x = cursor.pop();
            give(cursor, word::neg(x), left)
        }
        Instr::Not => {
            let x = cursor.pop();
            give(cursor, negation(x), left)
        }
        Instr::Apply(operator) => {
            let y = cursor.pop();
            let x = cursor.pop();
            let word = apply(*operator, x, y);
            give_checked(cursor, word, Fault::DivisionByZero, left)
        }
        Instr::ApplyNumber(operator, number) => apply_number(cursor, *operator, *number, left),
        Instr::Truth => {
            let x = cursor.pop();
            give(cursor, truth(x), left)
        }
        Instr::Value(reducer) => load(cursor, SmallAsk::Value(*reducer), left),
        Instr::Input => {
            let x = cursor.pop();
            give_checked(cursor, input.at(x), Fault::InputOutside, left)
        }
        Instr::InputCount => give(cursor, input.count(), left),
        Instr::Print => {
            let word = cursor.pop();
            wait(cursor, SmallAsk::Print(word), Owed::Nothing)
        }
        Instr::Create(reducer) => wait(cursor, SmallAsk::Create(*reducer), Owed::Nothing),
        Instr::Update(reducer) => {
            let word = cursor.pop();
            wait(cursor, SmallAsk::Update(*reducer, word), Owed::Nothing)
        }
        Instr::Set(reducer) => {
            let word = cursor.pop();
            wait(cursor, SmallAsk::Set(*reducer, word), Owed::Nothing)
        }
        Instr::Word(number) => {
            let word = cursor.word(*number as usize);
            store(cursor, Place::Local(0, *number), word)
        }
        Instr::Turn => {
            let turn = cursor.part().low;
            store(cursor, Place::Local(0, 0), turn)
        }
        Instr::Invoke(number) => {
            cursor.wait(Owed::Nothing);
            Moved::Invokes(*number)
        }
        Instr::CallLoop(number) => call_loop(cursor, *number),
        Instr::SpawnHalf => {
            cursor.no_operand_waits();
            let half = first_half(cursor.part());
            invoke_turns(cursor, Invocation::Spawn, half)
        }
        Instr::CallHalf => {
            cursor.no_operand_waits();
            let half = second_half(cursor.part());
            invoke_turns(cursor, Invocation::Call, half)
        }
        Instr::Resume => wait(cursor, SmallAsk::Resume, Owed::Nothing),
        Instr::JumpIfZero(count) => {
            let word = cursor.pop();
            skip_if(cursor, word == 0, *count)
        }
        Instr::SkipUnlessOne(count) => {
            let turns = cursor.part();
            let one = is_single(turns.low, turns.high);
            skip_if(cursor, !one, *count)
        }
        Instr::Jump(count) => skip_if(cursor, true, *count),
        Instr::JumpBack(count) => {
            cursor.go_back(*count);
            Moved::Goes
        }
        Instr::JumpBackUnlessZero(count) => {
            match cursor.pop() {
                0 => cursor.next(),
                _ => cursor.go_back(*count),
            }
            Moved::Goes
        }
        Instr::SetResult => {
            let word = cursor.pop();
            cursor.hold(word);
            cursor.next();
            Moved::Goes
        }
        Instr::Sync => {
            cursor.no_operand_waits();
            wait(cursor, SmallAsk::Sync, Owed::Nothing)
        }
        Instr::GiveResult => give_result(cursor),
        Instr::End => stop(SmallAsk::End(cursor.held())),
    }
}

/// Stores the invocation of a call site's function, and pops its words.
#[tactic(auto, using(crate::proofs::Given::words_there))]
pub fn invoke(code: &Code, cursor: &mut Cursor, number: usize, asked: &mut AskSlot)
    requires { (left : ℕ) × (invoking code.now number cursor.old left ≢ Stuck) }
    ensures moves { (left : ℕ) → invoking code.now number cursor.old left ≡ Waits asked.new cursor.new.owed cursor.new.place cursor.new.stack cursor.new.held left }
    ensures room { cursor.new.room ≡ cursor.old.room }
    ensures given { cursor.new.given ≡ cursor.old.given }
{
    asked.invoke(code.site(number), cursor);
    cursor.no_operand_waits();
}
