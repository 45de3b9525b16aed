//! How a frame starts a child.

/// How a child is started: called, or spawned. A spawned child may run in parallel with what
/// follows it in its parent.
#[derive(Clone, Copy)]
pub enum Invocation {
    Call,
    Spawn,
}
