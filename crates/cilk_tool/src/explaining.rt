//! Explanations of the replies to `threads`.

use crate::running::Ending;
use crate::serving::DEPARTED;
use cilk_commands::reply::Failure;
use cilk_findings::fault::CaseFault;
use cilk_messages::report::of_line;
use cilk_messages::threads_words::Order;
use cilk_messages::words::Order as Asked;
use cilk_report::{Kept, of_answer, of_failure};
use std::alloc::Global;

/// Returns the order to check the same certificate, with this input.
fn check_of<'a>(order: &Order<'a>, input: Option<&'a str>) -> Asked<'a> {
    Asked::Check {
        program: order.program,
        certificate: order.certificate,
        input,
    }
}

/// Returns the explanation of an ending: that of `check` for a refused certificate, and the meaning
/// of the number for an input that departs from the plan.
pub fn of_ending(
    alloc: Global,
    order: &Order<'_>,
    ending: &Ending,
    kept: &Kept,
) -> Result<String, CaseFault> {
    match ending {
        Ending::Answer(answer) => { of_answer(alloc, &check_of(order, order.input), answer, kept) }
        Ending::Departed(_) => {
            let file = order.on.unwrap_or(order.certificate);
            Ok(of_line(alloc, file, None, DEPARTED as u16)?)
        }
        Ending::Workers => Ok(String::new(alloc)),
    }
}

/// Returns the explanation of a failure: that of `check`, or of a fault in the input of `--on`.
pub fn of_fault(
    alloc: Global,
    order: &Order<'_>,
    failure: &Failure<'_>,
    kept: &Kept,
) -> Result<String, CaseFault> {
    let input = match failure {
        Failure::Input { .. } => faulty(order, kept),
        _ => order.input,
    };
    of_failure(alloc, &check_of(order, input), failure, kept)
}

// The path of the input with a fault, which was read last. The input of `--on` is read after the
// program and its own input.
fn faulty<'a>(order: &Order<'a>, kept: &Kept) -> Option<&'a str> {
    match order.input {
        Some(path) if kept.count() < 3 => Some(path),
        _ => order.on,
    }
}
