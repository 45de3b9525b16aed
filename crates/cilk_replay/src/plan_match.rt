//! The result of comparing a request with the plan's next event.

/// Whether the current frame requests the plan's next event.
#[derive(Clone, Copy)]
pub enum PlanMatch {
    /// It does.
    Follows,
    /// It requests something else: the run departs from the plan.
    Departs,
}
