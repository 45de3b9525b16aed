//! The signatures of functions.

use cilk_monoid::kind::MonoidKind;
use cilk_syntax::tree::ReturnType;
use cilk_types::sequence::Sequence;

/// The kind of a parameter: a word, or a reducer of a monoid, which is absent if the name isn't a
/// monoid's.
#[derive(Clone, Copy)]
pub enum ParameterKind {
    Word,
    Reducer(Option<MonoidKind>),
}

/// The signature of a function: its parameters in order, and its return type.
#[derive(Drop)]
pub struct Signature {
    pub returns: ReturnType,
    pub parameters: Sequence<ParameterKind>,
}
