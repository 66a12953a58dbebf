//! What a range is asked of.
use crate::aims::Aim;
use ip_model::{IntModel, Place};
use proof_tree::Tree;

/// What a range is asked of: a number of a model, the tree that is walked, and the aim.
#[derive(Clone, Copy)]
pub(crate) struct Asked<'a> {
    /// The model.
    pub(crate) model: &'a IntModel,
    /// The tree, whatever model it was made for.
    pub(crate) tree: &'a Tree,
    /// The place of the number.
    pub(crate) place: Place,
    /// What is to hold in each changed model.
    pub(crate) aim: Aim<'a>,
}
