use crate::entries::{Item, Rule};
use book::Part;
use table::Table;

mod methods;

/// The most parties, items and rules.
pub const MOST_PARTIES: usize = 16;

pub const MOST_ITEMS: usize = 256;

pub const MOST_RULES: usize = 512;

/// What the lines of a book fill, one after the other: who is enrolled, which items are registered, which rules there are
/// and what is asked for.
#[derive(Clone, Copy)]
pub(crate) struct Tables {
    pub(crate) parties: Table<Part, MOST_PARTIES>,
    pub(crate) items: Table<Item, MOST_ITEMS>,
    pub(crate) rules: Table<Rule, MOST_RULES>,
    pub(crate) asked: Option<u8>,
}
