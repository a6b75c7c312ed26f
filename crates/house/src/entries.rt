use book::Part;
use table::Table;

/// The most items in the body of a rule. As many may be written there, repeats included.
pub const MOST_BODY: usize = 8;

/// One ground disclosure: its source party discloses a credential to its destination party.
#[derive(Clone, Copy, PartialEq, Eq, Debug)]
pub struct Item {
    pub source: u8,
    pub destination: u8,
    /// The number of the first registered item with the same credential.
    pub credential: u8,
    /// Where the item is first written.
    pub part: Part,
}

/// The head may be disclosed by its source, the owner, once the whole body is unlocked at the owner. A `hold` line is a
/// rule with an empty body.
#[derive(Clone, Copy)]
pub struct Rule {
    pub head: u8,
    pub body: Table<u8, MOST_BODY>,
}
