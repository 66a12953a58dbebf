//! The node allowance of a model.
ghost use Rattle.std.specs.Prelude.{◌≡◌};
ghost use Rattle.ip_model.specs.Sizes.{allowance as allowance_of};

use crate::models::IntModel;

/// The greatest product of a tree's nodes and one more than the model's columns and rows together.
const MOST_NUMBERS: u32 = 1 << 24;

/// The node allowance: the lesser of `nodes` and 2^24 / (columns + rows + 1), rounded down. A tree of that many nodes fits the memory
/// and the file that a proof may take.
pub fn allowance(model: &IntModel, nodes: u32) -> u32
    ensures { result ≡ allowance_of model.now nodes }
{
    let parts = model.parts();
    let count = parts.columns.as_slice().len() + parts.rows.as_slice().len() + 1;
    nodes.min(MOST_NUMBERS / count as u32)
}
