//! The house: the rules of all parties, as reading a book gives them.
#![tactic(auto)]

mod display;
mod entries;
mod reading;
mod refusal;
mod store;
mod tables;
#[cfg(test)]
mod tests;
mod theorems;

pub use entries::{Item, MOST_BODY, Rule};
pub use reading::MOST_BYTES;
pub use refusal::Refusal;
pub use store::{House, read};
pub use tables::{MOST_ITEMS, MOST_PARTIES, MOST_RULES};
pub use theorems::{book_law, register_law, worked_books};
