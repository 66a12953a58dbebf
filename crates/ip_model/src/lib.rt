//! Models, which are integer programs within their limits: their boxes, points and costs.
#![tactic(auto)]

mod allowances;
mod areas;
mod breaches;
mod costs;
mod crossed_rows;
mod limits;
mod models;
mod places;
mod shapes;
mod terms;
mod widths;

pub use allowances::allowance;
pub use areas::{box_of, cut_above, cut_below, has_empty_column, set_box};
pub use breaches::first_breach;
pub use costs::cost;
pub use crossed_rows::crossed;
pub use ip_defs::{Breach, Column, Limit, Memory, Name, Parts, Point, Row, What};
pub use limits::has_many_entries;
pub use models::{IntModel, make};
pub use places::Place;
pub use shapes::well_shaped;
pub use terms::{difference, product, total_of};
pub use widths::width_sum;
