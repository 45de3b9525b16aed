//! The outcome of a run.

use crate::sequence::Sequence;

/// The last value of a global reducer.
#[derive(Drop)]
pub enum Final {
    /// The number that a program reads from it: of `add`, `min`, `max` and `affine`.
    Number(i64),
    /// The elements of the list: of `append`.
    List(Sequence<i64>),
}

/// The outcome of a run that ends: the result of `main`, the global cells in order, the printed
/// numbers in order, and each global reducer's last value in order of declaration.
pub struct Outcome {
    pub result: i64,
    pub globals: Sequence<i64>,
    pub output: Sequence<i64>,
    pub reducers: Sequence<Final>,
}

// A drop function of its own keeps proofs short: they follow one call.
impl Drop for Outcome {
    fn drop(self) {
        let Outcome {
            result: _,
            globals: _globals,
            output: _output,
            reducers: _reducers,
        } = self;
    }
}
