//! Entries in the order in which they were put in, with a chain through those that have one key, latest first.
#![tactic(auto)]

mod chains;
#[cfg(test)]
mod tests;
mod theorems;

pub use chains::Links;
pub use theorems::chain_law;
