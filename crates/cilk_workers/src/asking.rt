//! The numbers in the requests of frames, and the position of a chain.

ghost use Rattle.std.specs.Prelude.{◌≡◌, ◌≤◌, Some, length};
ghost use Rattle.cilk_replay.specs.Asking.{IsNextAsk};
ghost use Rattle.cilk_program.specs.declared.ask.Ask.TheVariants as asks;
ghost use Rattle.cilk_tree.specs.Runs.{IsAsked};
ghost use Rattle.cilk_tree.specs.Word.{event};
ghost use Rattle.cilk_workers.specs.Asks.{Carries, HasNumber, number_in};
ghost use Rattle.cilk_types.specs.declared.event.Event.TheVariants.{End};

use cilk_frames::asked::AskSlot;
use cilk_frames::small_ask::SmallAsk;
use cilk_replay::chain::Chain;

/// Returns the number in a request, if it has one.
pub(crate) fn number_in(asked: &AskSlot) -> Option<i64>
    ensures { result ≡ number_in asked.now }
{
    match asked.small_ask() {
        Some(SmallAsk::Write(_, number)) | Some(SmallAsk::Update(_, number)) => Some(*number),
        Some(SmallAsk::Set(_, number)) | Some(SmallAsk::Print(number)) => Some(*number),
        Some(SmallAsk::Result(number)) | Some(SmallAsk::End(number)) => Some(*number),
        _ => None,
    }
}

/// Returns the number of the next event, which the frame requests and which has a number.
pub(crate) fn number_asked(chain: &Chain) -> i64
    requires asked { IsAsked chain.now.of.yard.event_order chain.now.at }
    requires number { HasNumber (event chain.now.of.yard.event_order chain.now.at) }
    ensures { Carries (event chain.now.of.yard.event_order chain.now.at) result }
{
    let Some(number) = number_in(chain.ask()) else {
        unreachable!();
    };
    number
}

/// Returns the result in the frame's request to end.
pub(crate) fn result_asked(chain: &Chain) -> i64
    requires asked { IsAsked chain.now.of.yard.event_order chain.now.at }
    requires end { event chain.now.of.yard.event_order chain.now.at ≡ Some End }
    ensures { IsNextAsk chain.now.of chain.now.at (asks.End result) }
{
    let Some(number) = number_in(chain.ask()) else {
        unreachable!();
    };
    number
}

/// A law: the position of a chain is one of its event order.
pub(crate) fn stands_within(chain: &Chain)
    ensures { (1 ≤ chain.now.at) × (chain.now.at ≤ length chain.now.of.yard.event_order.events) }
{
    let _asked = chain.ask();
}
