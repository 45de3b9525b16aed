//! Whether no hidden number of the input decides a run.

ghost use Rattle.std.specs.Prelude.{◌≡◌, List, [], IfOk, true, false};
ghost use Rattle.cilk_types.specs.declared.limits.TheConstants.{MAX_TICKS};
ghost use Rattle.cilk_program.specs.declared.ask.Ask.TheVariants.{Begin};
ghost use Rattle.cilk_program.specs.declared.ask.Callee.TheVariants.{Root};
ghost use Rattle.cilk_frames.specs.Cursor.{first_of};
ghost use Rattle.cilk_types.specs.declared.event.Event.{Event};
ghost use Rattle.cilk_program.specs.Sources.{source};
ghost use Rattle.cilk_types.specs.declared.outcome.Outcome.{Outcome};
ghost use Rattle.cilk_program.specs.Outcomes.{Conclusion, Leaves};
ghost use Rattle.cilk_peers.specs.RaceFree.{IsRaceFree};
ghost use Rattle.cilk_oblivious.specs.Every.{SettlesEvery};
ghost use Rattle.cilk_program.specs.SerialRun.{IsSerialRun, Transcript};
ghost use Rattle.cilk_lower.specs.Behaves.{Behaves};
ghost use Rattle.cilk_oblivious.specs.Cursors.{hidden_of};
ghost use Rattle.cilk_oblivious.specs.Open.{IsObliviousRun};

use crate::marks::Marks;
use crate::memory::MarkedMemory;
use crate::step::{Request, Waiting};
use crate::watch::{Met, Watch};
use cilk_determinacy::words::programs_are_of_words;
use cilk_frames::asked::AskSlot;
use cilk_frames::cursor::Cursor;
use cilk_lower::code::Code;
use cilk_program::program::Program;
use cilk_types::event::Event;
use cilk_types::input::Input;
use cilk_types::limits::MAX_TICKS;
use std::alloc::{AllocError, Global};

/// Returns whether no hidden number of the input decides the serial run with these events: then each
/// input of as many numbers that agrees where `hidden` is false has a serial run with the same events
/// but for their values. False says nothing. Cost: linear in the run's ticks.
pub fn is_oblivious(
    alloc: Global,
    program: &Program,
    code: &Code,
    input: &Input,
    events: &[Event],
    hidden: &[bool],
) -> Result<bool, AllocError>
    requires behaves { Behaves (source program.now) code.now }
    requires run { (run : Transcript) × (c : Conclusion) × IsSerialRun (source program.now) input.now run events.now c }
    ensures { IfOk result (λ yes. yes ≡ true → (run : Transcript) (c : Conclusion) → IsSerialRun (source program.now) input.now run events.now c → IsObliviousRun (source program.now) input.now (hidden_of hidden.now) events.now c) }
{
    let mut watch = begun(alloc, code)?;
    'each: for position in 0..events.len() {
        match watch.meet(alloc, program, code, input, hidden, &events[position])? {
            Met::Goes => {}
            Met::Ended => return Ok(true),
            Met::Blocked => return Ok(false),
        }
    }
    Ok(true)
}

// The root's frame before it begins.
fn begun(alloc: Global, code: &Code) -> Result<Watch, AllocError>
    ensures top { IfOk result (λ w. w.top.cursor ≡ first_of code.now Root) }
    ensures marks { IfOk result (λ w. w.top.marks ≡ record { words = []; stack = []; held = false }) }
    ensures below { IfOk result (λ w. w.below.items ≡ []) }
    ensures asked { IfOk result (λ w. w.request.asked ≡ Begin) }
    ensures sent { IfOk result (λ w. w.request.sent.items ≡ []) }
    ensures left { IfOk result (λ w. w.request.left ≡ MAX_TICKS) }
{
    let cursor = Cursor::root(alloc, code)?;
    Ok(Watch {
        top: Waiting {
            cursor,
            marks: Marks::new(alloc, Vec::new(alloc)),
        },
        below: Vec::new(alloc),
        memory: MarkedMemory::new(alloc),
        request: Request {
            asked: AskSlot::new(),
            sent: Vec::new(alloc),
            left: MAX_TICKS,
        },
        spares: Vec::new(alloc),
    })
}

/// Returns whether a run with these events, which ends without a fault and has no race, settles every
/// parallel run on every input of as many numbers that agrees where `hidden` is false.
pub fn settles_every(
    alloc: Global,
    program: &Program,
    code: &Code,
    input: &Input,
    events: &[Event],
    hidden: &[bool],
) -> Result<bool, AllocError>
    requires behaves { Behaves (source program.now) code.now }
    requires run { (run : Transcript) × (outcome : Outcome) × IsSerialRun (source program.now) input.now run events.now (Leaves outcome) }
    requires free { IsRaceFree events.now }
    ensures { IfOk result (λ yes. yes ≡ true → SettlesEvery (source program.now) input.now (hidden_of hidden.now)) }
{
    programs_are_of_words(program);
    is_oblivious(alloc, program, code, input, events, hidden)
}
