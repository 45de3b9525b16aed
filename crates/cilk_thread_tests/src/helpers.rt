//! Certificates checked by several helpers, each in a thread of its own.

ghost use Rattle.std.specs.Prelude.{◌<◌, ◌≤◌};

use crate::texts::{GETS, certificate};
use cilk_checker::accepted::Accepted;
use cilk_checker::judge::program;
use cilk_checker::refusal::Refusal;
use cilk_checker::source::Whole;
use cilk_helpers::check_many;
use cilk_helpers::depths::{Team, replays};
use cilk_helpers::hints::hints;
use cilk_helpers::watch::Watch;
use cilk_helpers::whole::retell;
use cilk_lower::lower::lower;
use cilk_parser::input::parse_input;
use cilk_program::program::Program;
use cilk_types::event::FrameNo;
use cilk_types::input::Input;
use std::alloc::{AllocError, Global};
use std::hint::spin_loop;
use std::process::Abort;
use std::sync::atomic::{AtomicBool, AtomicU32, Ordering};
use std::test::Fail;
use std::thread::Threads;

// The certificate of a program without input.
fn made<R: Abort>(rt: &R, alloc: Global, text: &str) -> Vec<u8> {
    match certificate(alloc, text, "") {
        Some(certificate) => certificate,
        None => panic!(rt; "no certificate: {text}"),
    }
}

// The most turns for which frame 2 is held.
const MOST_TURNS: u32 = 20_000_000;

// Holds frame 2 until frame 3 has begun, or until the turns run out.
#[derive(Drop)]
struct Hold {
    begun: AtomicBool,
    opened: AtomicBool,
}

impl Hold {
    fn new() -> Hold {
        Hold {
            begun: AtomicBool::new(false),
            opened: AtomicBool::new(false),
        }
    }

    fn hold(&self) {
        for _ in 0..MOST_TURNS {
            if self.begun.load(Ordering::SeqCst) {
                self.opened.store(true, Ordering::SeqCst);
                return;
            }
            spin_loop();
        }
    }
}

impl Watch for Hold {
    fn at(&self, _helper: u32, frame: FrameNo) {
        if frame == 2 {
            self.hold();
        }
        if frame == 3 {
            self.begun.store(true, Ordering::SeqCst);
        }
    }
}

// Whether the hold ends early in a check of two spawned calls with frame 2 held.
fn opens<R: Abort + Threads + Sync>(rt: &R, alloc: Global, helpers: u32) -> bool
    requires some { 0 < helpers }
    requires most { helpers ≤ 16 }
{
    let text = made(rt, alloc, GETS);
    let hold = Hold::new();
    let answer = check_many(
        rt,
        alloc,
        GETS.as_bytes(),
        b"",
        text.as_slice(),
        helpers,
        &hold,
    );
    assert!(rt; answer.is_ok());
    hold.opened.load(Ordering::SeqCst)
}

#[test]
fn two_helpers_begin_two_frames_before_one_ends(rt: HostRuntime) {
    assert!(rt; opens(&rt, rt.alloc(), 2));
    assert!(rt; !opens(&rt, rt.alloc(), 1));
}

// Counts how often each frame begins.
#[derive(Drop)]
struct Counting {
    begun: Vec<AtomicU32>,
}

impl Counting {
    fn new(alloc: Global, frames: usize) -> Result<Counting, AllocError> {
        let mut begun = Vec::new(alloc);
        for _ in 0..frames {
            begun.push(AtomicU32::new(0))?;
        }
        Ok(Counting { begun })
    }

    // The number of frames that have begun that many times.
    fn count(&self, times: u32) -> usize {
        let mut count: usize = 0;
        for begun in self.begun.as_slice() {
            if begun.load(Ordering::SeqCst) == times {
                count = count.saturating_add(1);
            }
        }
        count
    }
}

impl Watch for Counting {
    fn at(&self, _helper: u32, frame: FrameNo) {
        if let Some(count) = self.begun.get(frame.wrapping_sub(1) as usize) {
            count.fetch_add(1, Ordering::SeqCst);
        }
    }
}

const FIB: &str =
    "int fib(int n) { if (n < 2) { return n; } int x; int y; x = cilk_spawn fib(n - 1); y = fib(n - 2); cilk_sync; return x + y; } int main() { int x = fib(10); return x; }";

const TURNS: &str =
    "int a[8]; int cilk_reducer(add) s; int main() { cilk_for (int i = 0; i < 8; i++) { int k = 0; while (k < i) { update(s, k); k = k + 1; } a[i] = k; } print(value(s)); return a[7]; }";

const GIVEN: &str =
    "int a[4]; int cilk_reducer(append) seen; void put(int cilk_reducer(max) m, int at, int n) { a[at] = n; update(m, n); update(seen, a[at]); } int twice(int n) { return n + n; } int main() { int cilk_reducer(max) m; int n = twice(4); cilk_spawn put(m, 0, n); cilk_spawn put(m, 1, n + n); put(m, 2, 3); cilk_sync; put(m, 3, a[1]); return value(m) + a[0]; }";

// Whether a run is built from the lists of a certificate: each frame is replayed once, and no replay
// is missing.
fn retells<R: Abort + Threads + Sync>(
    rt: &R,
    alloc: Global,
    program: &Program,
    input: &Input,
    certificate: &[u8],
    helpers: u32,
) -> Result<bool, Fail>
    requires some { 0 < helpers }
    requires most { helpers ≤ 16 }
{
    let hints = hints(alloc, &mut Whole::new(certificate))?;
    let counting = Counting::new(alloc, hints.frames.len())?;
    let code = lower(alloc, program)?;
    let team = Team {
        rt,
        helpers,
        watch: &counting,
    };
    let replays = replays(team, alloc, program, &code, input, &hints)?;
    let is_once = counting.count(1) == hints.frames.len();
    Ok(retell(alloc, program, &code, input, replays)?.is_some() && is_once)
}

#[test]
fn runs_are_retold(rt: HostRuntime) -> Result<(), Fail> {
    let alloc = rt.alloc();
    let input = parse_input(alloc, b"")?;
    for text in [FIB, TURNS, GIVEN] {
        let certificate = made(&rt, alloc, text);
        let program = program(alloc, text.as_bytes())?;
        for helpers in [1, 3, 16] {
            let is_retold = retells(
                &rt,
                alloc,
                &program,
                &input,
                certificate.as_slice(),
                helpers,
            )?;
            assert!(rt; is_retold, "{text}");
        }
    }
    Ok(())
}

// Twenty frames. Each one uses up all ticks if it reads anything but 0.
const LONG: &str =
    "int g; void work() { if (g) { while (1) { } } } int main() { cilk_for (int i = 0; i < 20; i++) { work(); } return 0; }";

// A certificate in which each frame reads 1 in place of 0.
fn changed(alloc: Global, right: &[u8]) -> Result<Vec<u8>, AllocError> {
    let mut text = Vec::new(alloc);
    for line in right.split_inclusive(|byte| *byte == b'\n') {
        if line == b"read 0 0 0\n".as_slice() {
            text.extend_from_slice(b"read 0 1 0\n")?;
        } else {
            text.extend_from_slice(line)?;
        }
    }
    Ok(text)
}

// Whether an answer is a refusal by this number.
fn is_refused(answer: Result<Accepted, Refusal>, number: u16) -> bool {
    match answer {
        Ok(_) => false,
        Err(refusal) => refusal.number() == number,
    }
}

#[test]
fn other_values_cost_no_more_than_some_runs(rt: HostRuntime) -> Result<(), Fail> {
    let alloc = rt.alloc();
    let text = changed(alloc, made(&rt, alloc, LONG).as_slice())?;
    let counting = Counting::new(alloc, 100)?;
    let answer = check_many(
        &rt,
        alloc,
        LONG.as_bytes(),
        b"",
        text.as_slice(),
        1,
        &counting,
    );
    let is_refused = is_refused(answer, 303);
    assert!(rt; is_refused && counting.count(1) > 0 && counting.count(1) < 60);
    Ok(())
}
