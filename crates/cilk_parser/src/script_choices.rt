//! Expansion of a script's steps into single choices.

ghost use Rattle.std.specs.Prelude.{◌≡◌};
ghost use Rattle.cilk_parser.specs.ScriptChoices.{IsNextChoice, choices_left, choices_within, count_of};

use crate::script::{LineOrder, Step};

/// The maximum number of choices of a script, without those of `all`.
pub const MAX_CHOICES: u32 = 16_000_000;

/// The next choice of a script. Workers count from 1, continuations from 0.
#[derive(Clone, Copy)]
pub enum Next {
    /// The worker continues its frame.
    Run(u32),
    /// The worker steals the continuation at this place among all that are offered.
    Steal(u32, u32),
    /// Rounds of all workers, until the run has ended.
    Rounds,
    /// The choices of this line would exceed [`MAX_CHOICES`]. It is the last item.
    Past(usize),
}

/// The remaining choices of a script. It borrows the steps and allocates nothing.
#[derive(Drop)]
pub struct Choices<'a> {
    steps: &'a [Step],
    // The worker of the current `run`, and the number of its remaining choices.
    worker: u32,
    left: u32,
    // How many choices the remaining steps may have.
    room: u32,
}

impl<'a> Choices<'a> {
    /// Starts before the first choice of the steps.
    pub fn new(steps: &'a [Step]) -> Self
        ensures { choices_left result ≡ choices_within MAX_CHOICES steps.entry.now }
    {
        Choices {
            steps,
            worker: 0,
            left: 0,
            room: MAX_CHOICES,
        }
    }

    /// Returns the next choice, or `None` after the last one.
    pub fn next(&mut self) -> Option<Next>
        ensures { IsNextChoice (choices_left self.old) result (choices_left self.new) }
    {
        'steps: while self.left == 0 {
            let [step, behind @ ..] = self.steps else {
                return None;
            };
            let count = count_of(step.order);
            if self.room < count {
                self.steps = &behind[behind.len()..];
                return Some(Next::Past(step.line));
            }
            self.steps = behind;
            self.room -= count;
            match step.order {
                LineOrder::Run { worker, count } => {
                    self.worker = worker;
                    self.left = count;
                }
                LineOrder::Steal { worker, place } => return Some(Next::Steal(worker, place)),
                LineOrder::All => return Some(Next::Rounds),
            }
        }
        self.left -= 1;
        Some(Next::Run(self.worker))
    }
}

// The number of choices of an order. Those of `all` don't count.
fn count_of(order: LineOrder) -> u32
    ensures { result ≡ count_of order }
{
    match order {
        LineOrder::Run { worker: _, count } => count,
        LineOrder::Steal { .. } => 1,
        LineOrder::All => 0,
    }
}
