//! Certificates of leaves and the bounds that they prove. An auditor of a proof relies on this crate, and on no code of the search.
#![tactic(auto)]

mod arithmetic;
mod certs;
mod changes;
mod columns;
mod leaf;
mod payments;
mod scratches;
mod workspaces;

pub use certs::cert_ok;
pub use changes::Change;
pub use columns::{reduced_at, take_rows};
pub use ip_defs::{Area, Bound, Cert, Memory, Multipliers, weak_duality};
pub use ip_model::Place;
pub use leaf::{leaf_bound, leaf_bound_after, leaf_bound_at};
pub use payments::side_of;
pub use scratches::scratch;
pub use workspaces::Scratch;
