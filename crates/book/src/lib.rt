//! Books: the text that all parties' rules are written in, line by line.
#![tactic(auto)]

mod fault;
mod parts;
mod reader;
#[cfg(test)]
mod tests;
mod theorems;

pub use fault::Fault;
pub use parts::{ItemParts, Line, Part};
pub use reader::Reader;
pub use theorems::{inverse_law, item_law, line_end_law, places_law};
