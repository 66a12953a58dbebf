//! The steps of the bounded simplex with the least-number rule, over plain tableaus, and what its final tableaus prove.
#![tactic(auto)]

mod laws;
mod next;

pub use laws::{
    best_is_least, best_is_right, empty_has_no_point, empty_is_right, finals_stay, runs_have_begun,
    runs_stand, steps_can_be_made,
};
pub use next::Next;
