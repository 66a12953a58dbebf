//! Allowable ranges of the numbers of a program: good changes of a number are a run, and two good ends with bad neighbours are the range.
#![tactic(auto)]

mod laws;

pub use laws::{
    ends_are_ranges, good_changes_are_runs, good_changes_hold, none_is_good_beyond,
    ranges_are_unique, widening,
};
