//! What a row sweep is made along.
use branching::Limits;
use ip_model::{IntModel, Place};

/// A model and a direction of its row sides, the last step, and the limits of all solves together.
#[derive(Clone, Copy)]
pub struct Course<'a> {
    pub model: &'a IntModel,
    pub dir: &'a [(Place, i64)],
    pub steps_to: u32,
    pub limits: Limits,
}
