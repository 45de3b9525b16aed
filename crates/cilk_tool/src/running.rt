//! The command `threads`: a program is checked, and run by workers if its certificate is accepted.

ghost use Rattle.std.specs.Prelude.{◌≡◌, ◌≢◌, ◌<◌, [], Some, IfOk, IfErr, OnOk, option_map};
ghost use Rattle.cilk_checker.specs.Judging.{meant};
ghost use Rattle.cilk_commands.specs.Replies as replies;
ghost use Rattle.cilk_commands.specs.Replies.{failure_view};
ghost use Rattle.cilk_commands.specs.Serving.{world};
ghost use Rattle.cilk_commands.specs.Shown.{CheckShows};
ghost use Rattle.cilk_tool.specs.Endings.{AreNotGiven, IsVerdict, StaysBeside, ending_view};
ghost use Rattle.cilk_tool.specs.Serving.{Answers};
ghost use Rattle.cilk_tool.specs.Shown.{AcceptedShow, GivesNumbers, RunShows, ThreadsShow};
ghost use Rattle.cilk_messages.specs.ThreadsWords.{order_view};

use crate::since::{Moment, PartsSince};
use cilk_checker::accepted::Accepted;
use cilk_checker::check::check_run;
use cilk_checker::refusal::Unaccepted;
use cilk_commands::files::{Files, Parts};
use cilk_commands::parts::PartSource;
use cilk_commands::reply::{Answer, Failure};
use cilk_commands::{CountedRead, given, input as judge_input, names, read_file, refused};
use cilk_messages::threads_words::Order;
use cilk_messages::words::Origin;
use cilk_plan::program_plan::plan;
use cilk_program::program::Program;
use cilk_threads::run::ThreadFault;
use cilk_threads::threads::run_threads;
use cilk_types::event::Pos;
use cilk_types::input::Input;
use cilk_types::outcome::Outcome;
use cilk_workers::gate::Gate;
use std::alloc::Global;
use std::marker::{Brand, PhantomData};
use std::sync::Wait;
use std::thread::Threads;

/// The end of the command.
#[derive(Drop)]
pub enum Ending {
    /// The outcome of the run, or the certificate's refusal.
    Answer(Answer),
    /// The number of workers isn't 1 to 64.
    Workers,
    /// The run on the given input departs from the plan of the certified run at this position.
    Departed(Pos),
}

/// The result of the check.
#[derive(Drop)]
pub enum Verdict {
    /// The certificate is accepted, with its run.
    Accepted(Accepted),
    /// The certificate is refused.
    Refused(Answer),
}

/// The paths of a certificate and of a file whose contents stay known. Both may be the same.
#[derive(Clone, Copy)]
struct Paths<'a> {
    path: &'a str,
    other: &'a str,
}

/// Checks the certificate in a file. If it is accepted, no read failed, and the contents of the
/// other file stay known.
fn checked<'a, F: Files, M: Moment>(
    alloc: Global,
    program: Program,
    input: Input,
    paths: Paths<'a>,
    files: &mut F,
) -> Result<Verdict, Failure<'a>>
    requires room { (F.failed files.old).count < 18446744073709551615 }
    requires moment { F.failed files.old ≡ M.failed }
    ensures verdict { IfOk result (IsVerdict paths.entry.path.now (F.holds files.old paths.entry.path.now) (F.failed files.old) (F.failed files.new) (meant program) input) }
    ensures failure { IfErr result (λ e. (failure_view e ≢ replies.Accepted) × CheckShows paths.entry.path.now (F.holds files.old paths.entry.path.now)
        (F.failed files.old) (F.failed files.new) (meant program) input (failure_view e)) }
    ensures beside { IfOk result (StaysBeside (F.failed files.old) (F.failed files.new)
        (F.holds files.old paths.entry.other.now) (F.holds files.new paths.entry.other.now)) }
{
    let mut source: PartsSince<'_, '_, F, M> = PartsSince {
        parts: PartSource::new(files, paths.path, Parts::OfFile, paths.other),
        moment: PhantomData,
    };
    match check_run(alloc, program, input, &mut source) {
        Ok(accepted) => Ok(Verdict::Accepted(accepted)),
        Err(Unaccepted::Unread) => Err(Failure::Unreadable(paths.path)),
        Err(Unaccepted::Refusal(refusal)) => Ok(Verdict::Refused(refused(refusal)?)),
    }
}

/// Reads the numbers of an input file.
fn numbers<'a, F: Files>(alloc: Global, path: &'a str, files: &mut F) -> Result<Input, Failure<'a>>
    requires { (F.failed files.old).count < 18446744073709551615 }
    ensures numbers { IfOk result (λ i. GivesNumbers (F.holds files.old) (Some path.entry.now) [] i) }
    ensures failure { IfErr result (λ e. AreNotGiven (F.holds files.old) (F.failed files.old) (F.failed files.new) path.entry.now (failure_view e)) }
    ensures uncounted { OnOk result (F.failed files.new ≡ F.failed files.old) }
{
    let text = read_file(alloc, path, files)?;
    judge_input(alloc, text.as_slice())
}

/// Returns the outcome of an accepted program, with the names of its global reducers.
fn ended<'a>(alloc: Global, accepted: &Accepted, outcome: Outcome) -> Result<Ending, Failure<'a>>
    ensures answer { IfOk result (λ e. let m = meant accepted.now.program in ending_view e ≡ replies.Ended m.names outcome) }
    ensures failure { IfErr result (λ e. failure_view e ≡ replies.NoMemory) }
{
    Ok(Ending::Answer(Answer::Outcome {
        names: names(alloc, accepted.program().reducers.as_slice())?,
        outcome,
    }))
}

/// Runs an accepted program by `workers` workers on these numbers. The gate is called as each
/// strand begins.
fn run<'a, H: Threads + Wait + Sync, G: Gate + Sync>(
    rt: &H,
    alloc: Global,
    accepted: &Accepted,
    numbers: &Input,
    workers: u32,
    gate: &G,
) -> Result<Ending, Failure<'a>>
    ensures answer { IfOk result (λ e. RunShows accepted.now (meant accepted.now.program) numbers.now workers (ending_view e)) }
    ensures failure { IfErr result (λ e. RunShows accepted.now (meant accepted.now.program) numbers.now workers (failure_view e)) }
{
    let plan = plan(alloc, accepted)?;
    plan.laws();
    match run_threads(rt, alloc, &plan, numbers, workers, gate) {
        Ok(outcome) => ended(alloc, accepted, outcome),
        Err(ThreadFault::Departs(at)) => Ok(Ending::Departed(at)),
        Err(ThreadFault::Workers) => Ok(Ending::Workers),
        Err(ThreadFault::Memory) => Err(Failure::Memory),
    }
}

/// Runs an accepted program by `workers` workers, on its own input or on that of a file.
fn accepted_run<'a, H: Threads + Wait + Sync, G: Gate + Sync, F: Files>(
    rt: &H,
    alloc: Global,
    accepted: &Accepted,
    on: Option<&'a str>,
    workers: u32,
    gate: &G,
    files: &mut F,
) -> Result<Ending, Failure<'a>>
    requires { (F.failed files.old).count < 18446744073709551615 }
    ensures answer { IfOk result (λ e. AcceptedShow (F.holds files.old) (F.failed files.old) (F.failed files.new)
        (option_map (λ p. p.now) on.entry) workers accepted.now (meant accepted.now.program) (ending_view e)) }
    ensures failure { IfErr result (λ e. AcceptedShow (F.holds files.old) (F.failed files.old) (F.failed files.new)
        (option_map (λ p. p.now) on.entry) workers accepted.now (meant accepted.now.program) (failure_view e)) }
{
    match on {
        None => run(rt, alloc, accepted, accepted.input(), workers, gate),
        Some(path) => {
            let numbers = numbers(alloc, path, files)?;
            run(rt, alloc, accepted, &numbers, workers, gate)
        }
    }
}

/// Checks the certificate of a program's run, and runs the program if it is accepted.
fn judged<'a, H: Threads + Wait + Sync, G: Gate + Sync, F: Files>(
    rt: &H,
    alloc: Global,
    program: Program,
    input: Input,
    order: &Order<'a>,
    gate: &G,
    files: &mut F,
) -> Result<Ending, Failure<'a>>
    requires { (F.failed files.old).count < 18446744073709551615 }
    ensures answer { IfOk result (λ e. ThreadsShow (F.holds files.old) (F.failed files.old) (F.failed files.new) (order_view order.now)
        (meant program) input (ending_view e)) }
    ensures failure { IfErr result (λ e. ThreadsShow (F.holds files.old) (F.failed files.old) (F.failed files.new) (order_view order.now)
        (meant program) input (failure_view e)) }
{
    let paths = Paths {
        path: order.certificate,
        other: order.on.unwrap_or(order.certificate),
    };
    match checked::<F, Brand>(alloc, program, input, paths, files)? {
        Verdict::Accepted(accepted) => {
            accepted_run(rt, alloc, &accepted, order.on, order.workers, gate, files)
        }
        Verdict::Refused(answer) => Ok(Ending::Answer(answer)),
    }
}

/// Carries out an order of `threads`. The program is read and judged first, then its input, then
/// the certificate, then the input of `--on`. The gate is called as each strand of a run begins.
pub fn carry_out<'a, H: Threads + Wait + Sync, G: Gate + Sync, F: Files, R: CountedRead>(
    rt: &H,
    alloc: Global,
    order: &Order<'a>,
    gate: &G,
    files: &mut F,
    reader: &mut R,
) -> Result<Ending, Failure<'a>>
    requires { (F.failed files.old).count < 18446744073709551615 }
    ensures answer { IfOk result (λ e. Answers (world (F.holds files.old) (R.remaining reader.old) (F.failed files.old) (F.failed files.new))
        (Some (order_view order.now)) (ending_view e)) }
    ensures failure { IfErr result (λ e. Answers (world (F.holds files.old) (R.remaining reader.old) (F.failed files.old) (F.failed files.new))
        (Some (order_view order.now)) (failure_view e)) }
    ensures untouched { reader.new ≡ reader.old }
{
    let (program, input) = given(
        alloc,
        Origin::File(order.program),
        order.input,
        files,
        reader,
    )?;
    judged(rt, alloc, program, input, order, gate, files)
}
