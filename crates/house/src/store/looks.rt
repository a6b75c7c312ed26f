ghost use Rattle.std.specs.Prelude.{◌≡◌};
ghost use Rattle.house.specs.View.{rule_views, empty_view};
ghost use Rattle.house.specs.House.{view};
ghost use Rattle.house.specs.Law.{Limits, Sound};

use super::House;
use crate::entries::{Item, Rule};
use crate::tables::Tables;
use book::Part;

impl House {
    /// A house of no parties, read from a text of no bytes.
    pub fn empty() -> House
        ensures { view result ≡ empty_view }
    {
        House {
            tables: Tables::empty(),
            text_length: 0,
        }
    }

    /// Where the names of the parties are written, in the order of enrolment.
    pub fn parties(&self) -> &[Part]
        ensures { result.now ≡ (view self.now).parties }
    {
        self.tables.parties.as_slice()
    }

    /// The registered items, by their numbers.
    pub fn items(&self) -> &[Item]
        ensures { result.now ≡ (view self.now).items }
    {
        self.tables.items.as_slice()
    }

    /// The rules, `hold` lines among them, in the order of the lines. A rule is known by its view.
    pub fn rules(&self) -> &[Rule]
        ensures { rule_views result.now ≡ (view self.now).rules }
    {
        self.tables.rules.as_slice()
    }

    /// The item that is asked for; none without an `ask` line.
    pub fn asked(&self) -> Option<u8>
        ensures { result ≡ (view self.now).asked }
    {
        self.tables.asked
    }

    /// How many bytes the text has that was read.
    pub fn text_length(&self) -> usize
        ensures { result ≡ (view self.now).size }
    {
        self.text_length
    }

    /// A theorem: each number in a house is that of an enrolled party or a registered item, each part lies within the text,
    /// no body item is strange to the rule's owner, and no table is longer than its limit.
    pub fn soundness_law(&self)
        ensures sound { Sound (view self.now) }
        ensures limits { Limits (view self.now) }
    {}
}
