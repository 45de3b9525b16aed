//! Whether a frame requests the child that a plan's run begins.

ghost use Rattle.std.specs.Prelude.{◌≡◌};
ghost use Rattle.cilk_replay.specs.Frames.{same_body};
ghost use Rattle.cilk_replay.specs.Children.{MatchesBody, body_asked};

use crate::plan_match::PlanMatch;
use cilk_frames::asked::AskSlot;
use cilk_frames::small_ask::SmallAsk;
use cilk_program::program::Body;

/// Returns the function or loop of the child that a frame requests.
pub(crate) fn body_asked(asked: &AskSlot) -> Body
    ensures { result ≡ body_asked asked.now }
{
    match asked.small_ask() {
        None => Body::Function(asked.invocation().1.function),
        Some(SmallAsk::Turns(_, part)) => Body::Loop(part.number),
        Some(_) => Body::Function(0),
    }
}

/// Returns whether a requested child runs the same function or loop as the plan's.
pub(crate) fn body_matches(planned: Body, asked: Body) -> PlanMatch
    ensures { MatchesBody planned asked result }
{
    if same_body(planned, asked) {
        PlanMatch::Follows
    } else {
        PlanMatch::Departs
    }
}

fn same_body(a: Body, b: Body) -> bool
    ensures { result ≡ same_body a b }
{
    match (a, b) {
        (Body::Function(n), Body::Function(m)) => n == m,
        (Body::Loop(n), Body::Loop(m)) => n == m,
        _ => false,
    }
}
