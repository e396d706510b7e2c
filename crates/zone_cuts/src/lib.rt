//! Compares the two sides of a zone cut: what a parent zone has of its child, and what the child has
//! itself.
#![tactic(auto)]

mod digests;
pub mod glue;
mod owned;
pub mod servers;
pub mod signers;

pub use glue::{is_at_served_cut, is_other_glue};
pub use servers::{ServerDifference, server_difference};
pub use signers::lacks_fitting_ds;
