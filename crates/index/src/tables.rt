use house::{MOST_ITEMS, MOST_RULES};
use links::Links;

mod methods;

/// The most items in the bodies of all rules together.
pub const MOST_USES: usize = 4096;

/// Chains through the rules and the items of a house.
#[derive(Clone, Copy)]
pub struct Index {
    /// Body items, rule after rule, each with the number of the rule that it stands in.
    pub uses: Links<u16, MOST_USES>,
    /// Rules by their heads.
    pub heads: Links<(), MOST_RULES>,
    /// Items by their credentials.
    pub credentials: Links<(), MOST_ITEMS>,
}
