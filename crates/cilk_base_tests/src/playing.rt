//! Worked programs, and rounds of their workers.

ghost use Rattle.std.specs.Prelude.{◌≡◌, None};
ghost use Rattle.cilk_schedule.specs.Sound.{Runs};

use cilk_checker::judge::program;
use cilk_lower::code::Code;
use cilk_lower::lower::lower;
use cilk_schedule::machine::Machine;
use cilk_scheduler::choice::{Choice, Stop};
use cilk_types::input::Input;
use cilk_types::word_list::WordList;
use std::alloc::Global;
use std::process::Abort;

pub fn code_of(rt: &impl Abort, alloc: Global, text: &str) -> Code {
    let Ok(program) = program(alloc, text.as_bytes()) else {
        panic!(rt; "no program: {text}");
    };
    let Ok(code) = lower(alloc, &program) else {
        panic!(rt; "no memory");
    };
    code
}

pub fn no_input(alloc: Global) -> Input {
    Input::new(WordList::new(alloc))
}

/// Plays round-robin choices of n workers until the run has ended: each continues with its frame,
/// or tries to steal the first continuation.
pub fn rounds(alloc: Global, machine: &mut Machine<'_>, workers: u32) -> Result<(), Stop>
    requires { machine.old.scheduler.stopped ≡ None → Runs machine.old.code.now machine.old.input.now machine.old.scheduler }
    ensures { machine.new.scheduler.stopped ≡ None → Runs machine.new.code.now machine.new.input.now machine.new.scheduler }
{
    'choices: for number in 0..4_000_000u32 {
        if machine.ended() {
            break;
        }
        let worker = number.checked_rem(workers).unwrap_or(0).saturating_add(1);
        machine.choose(alloc, turn(machine, worker))?;
    }
    Ok(())
}

// A worker's choice: it continues with its frame, or steals the first continuation.
fn turn(machine: &Machine<'_>, worker: u32) -> Choice {
    if machine.holds(worker) {
        Choice::Run(worker)
    } else {
        Choice::Steal(worker, 0)
    }
}

pub const FIB: &str =
    "int fib(int n) { if (n < 2) { return n; } int x; int y; x = cilk_spawn fib(n - 1); y = fib(n - 2); cilk_sync; \
    return x + y; } int main() { int r; r = fib(10); return r; }";

pub const RACE: &str =
    "int one() { return 1; } int main() { int x; int y; x = cilk_spawn one(); y = x; cilk_sync; return y; }";

pub const SUM: &str =
    "int cilk_reducer(add) s; int main() { cilk_for (int i = 1; i < 101; i++) { update(s, i); } return value(s); }";

pub const LIST: &str =
    "int cilk_reducer(append) l; int main() { cilk_for (int i = 0; i < 5; i++) { update(l, i); } return value(l); }";

pub const LOCAL: &str =
    "int f(int n) { int cilk_reducer(add) s; cilk_for (int i = 0; i < n; i++) { update(s, i); } return value(s); } \
    int main() { int x; int y; x = cilk_spawn f(4); y = cilk_spawn f(5); cilk_sync; return x + y; }";

pub const DIVIDE: &str =
    "int d(int k) { return 6 / k; } int main() { int x; int y; x = cilk_spawn d(2); y = cilk_spawn d(0); \
    cilk_sync; return x + y; }";

pub const PRINTS: &str =
    "void p(int n) { print(n); } int main() { cilk_spawn p(1); cilk_spawn p(2); cilk_spawn p(3); cilk_sync; return \
    0; }";

pub const GIVEN: &str =
    "void put(int cilk_reducer(append) l, int x) { update(l, x); } int main() { int cilk_reducer(append) a; \
    cilk_spawn put(a, 1); cilk_spawn put(a, 2); cilk_sync; return value(a); }";
