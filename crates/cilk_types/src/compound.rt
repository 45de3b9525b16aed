//! Compound assignments.

/// The operator of a compound assignment: `+=`, `-=` or `*=`.
#[derive(Clone, Copy)]
pub enum Compound {
    Add,
    Subtract,
    Multiply,
}
