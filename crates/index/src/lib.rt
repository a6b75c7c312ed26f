//! Where items are used: the rules with an item in the body or as head, and the items with one credential.
#![tactic(auto)]

mod tables;
#[cfg(test)]
mod tests;

pub use tables::{Index, MOST_USES};
