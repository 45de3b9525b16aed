//! The sort of a request and of a plan's event, without its cell, reducer or frame.

ghost use Rattle.std.specs.Prelude.{◌≡◌};
ghost use Rattle.cilk_replay.specs.Sorts.{sort_asked, sort_of, sort_started};

use cilk_frames::asked::AskSlot;
use cilk_frames::small_ask::SmallAsk;
use cilk_tree::kind::Kind;
use cilk_types::invocation::Invocation;

/// The sort of an event.
#[derive(Clone, Copy, PartialEq, Eq)]
pub enum Sort {
    Begin,
    Spawn,
    Call,
    Resume,
    Sync,
    End,
    Read,
    Write,
    Create,
    Update,
    Set,
    Value,
    Print,
    /// A fault makes no event.
    Nothing,
}

// The sort of a child's start.
fn started(how: Invocation) -> Sort
    ensures { result ≡ sort_started how }
{
    match how {
        Invocation::Call => Sort::Call,
        Invocation::Spawn => Sort::Spawn,
    }
}

/// Returns the sort of a request.
pub(crate) fn asked_sort(asked: &AskSlot) -> Sort
    ensures { result ≡ sort_asked asked.now }
{
    let Some(small_ask) = asked.small_ask() else {
        return started(asked.invocation().0);
    };
    match small_ask {
        SmallAsk::Begin => Sort::Begin,
        SmallAsk::Read(_) => Sort::Read,
        SmallAsk::Write(_, _) | SmallAsk::Result(_) => Sort::Write,
        SmallAsk::Create(_) => Sort::Create,
        SmallAsk::Update(_, _) => Sort::Update,
        SmallAsk::Set(_, _) => Sort::Set,
        SmallAsk::Value(_) => Sort::Value,
        SmallAsk::Print(_) => Sort::Print,
        SmallAsk::Turns(how, _) => started(*how),
        SmallAsk::Resume => Sort::Resume,
        SmallAsk::Sync => Sort::Sync,
        SmallAsk::End(_) => Sort::End,
        SmallAsk::Fault(_) => Sort::Nothing,
    }
}

/// Returns the sort of a plan's event.
pub(crate) fn kind_sort(kind: Kind) -> Sort
    ensures { result ≡ sort_of kind }
{
    match kind {
        Kind::Begin { .. } => Sort::Begin,
        Kind::Spawn { .. } => Sort::Spawn,
        Kind::Call { .. } => Sort::Call,
        Kind::Resume { .. } => Sort::Resume,
        Kind::Sync => Sort::Sync,
        Kind::End => Sort::End,
        Kind::Read { .. } => Sort::Read,
        Kind::Write { .. } => Sort::Write,
        Kind::Create { .. } => Sort::Create,
        Kind::Update { .. } => Sort::Update,
        Kind::Set { .. } => Sort::Set,
        Kind::Value { .. } => Sort::Value,
        Kind::Print => Sort::Print,
    }
}
