//! A table of fixed capacity, filled from the front.
#![tactic(auto)]

mod store;

pub use store::{Full, Table};
