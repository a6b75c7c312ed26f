ghost use Rattle.std.specs.Prelude.{◌≡◌};
ghost use Rattle.std.specs.Iterator.{at_most};
ghost use Rattle.house.specs.Filling.{BodyNext};

use super::bytes::item_at;
use book::ItemParts;

/// The length of the word between two items of a body, with its spaces.
const AND: usize = 5;

/// The items of a body that are still to come: how many, and where in the text the next is written.
#[derive(Clone, Copy)]
pub(super) struct Body<'a> {
    text: &'a [u8],
    place: usize,
    pub(super) count: usize,
}

impl<'a> Body<'a> {
    /// The items of a body of which the first is written at a place.
    pub(super) fn new(text: &'a [u8], place: usize, count: usize) -> Body<'a>
        ensures text { result.text.now ≡ text.now }
        ensures place { result.place ≡ place }
        ensures count { result.count ≡ count }
    {
        Body { text, place, count }
    }
}

impl Iterator for Body<'_> {
    type Item = ItemParts;

    ghost next_gives = { BodyNext };

    ghost remaining = { λ body. at_most body.count };

    fn next(&mut self) -> Option<ItemParts> {
        let count = self.count.checked_sub(1)?;
        let item = item_at(self.text, self.place)?;
        self.count = count;
        self.place = self
            .place
            .saturating_add(item.whole.length)
            .saturating_add(AND);
        Some(item)
    }
}
