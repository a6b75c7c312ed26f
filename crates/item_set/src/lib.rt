//! A set of items, by their numbers below 256.
#![tactic(auto)]

mod set;
#[cfg(test)]
mod tests;

pub use set::ItemSet;
