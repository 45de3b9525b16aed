//! The context of a worker.

use crate::gate::Gate;
use crate::lock::Lock;
use crate::naming::Naming;
use crate::shared::Shared;
use std::alloc::Global;
use std::sync::Wait;

/// The context of a worker, which it never changes: the run and the locks of the shelves, which all
/// workers share, its gate, and its number. The box of block `b` is on shelf `b` modulo the number
/// of shelves.
#[derive(Drop)]
pub struct WorkerContext<'a, 'b, N: Naming, R: Wait, G: Gate> {
    pub rt: &'a R,
    pub alloc: Global,
    pub shared: &'a Shared<'b>,
    pub locks: &'a Vec<Lock<N>>,
    pub gate: &'a G,
    pub worker: u32,
}
