//! A waiting line, oldest first, over places that the caller lends.
#![tactic(auto)]

mod line;
#[cfg(test)]
mod tests;

pub use line::Line;
pub use table::Full;
