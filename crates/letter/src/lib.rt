//! The letters of a negotiation, and their bytes on the wire.
#![tactic(auto)]

mod bytes;
mod display;
mod letter;
mod number;
mod refusal;
#[cfg(test)]
mod tests;
mod theorems;

pub use bytes::write_numbers;
pub use letter::{Kind, Letter};
pub use number::read_number;
pub use refusal::Refusal;
pub use theorems::{encoding_law, one_answer, worked_values};
