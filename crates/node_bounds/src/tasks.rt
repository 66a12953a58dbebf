//! What is asked of a node.
use ip_defs::Area;
use ip_model::IntModel;

/// What is asked of a node: the box of a model, and how it is to be worked on.
#[derive(Clone, Copy)]
pub struct Task<'a> {
    /// The model.
    pub model: &'a IntModel,
    /// The box of the node.
    pub area: &'a Area,
    /// The most steps of its linear program, and of what is proposed.
    pub pivots: u32,
    /// The cost at which the search cuts: what costs no less is of no use.
    pub cut_at: Option<i128>,
}
