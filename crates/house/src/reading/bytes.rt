ghost use Rattle.std.specs.Prelude.{◌≡◌};
ghost use Rattle.house.specs.Filling.{alike, concerns, item_at, like_item, like_credential};

use super::Draft;
use crate::entries::Item;
use book::{ItemParts, Part, Reader};

/// The item that is written at a place, if there is one.
// No method of a draft: a body asks it too.
pub(super) fn item_at(text: &[u8], place: usize) -> Option<ItemParts>
    ensures { result ≡ item_at text.now place }
{
    Reader::new(text, place).item()
}

// Items are looked at by `match`: by `is_some_and` the proof does not close, with a clause on the closure or without.
impl Draft<'_> {
    /// Whether the same bytes stand at two parts.
    pub(super) fn alike(&self, one: Part, other: Part) -> bool
        ensures { result ≡ alike self.now.text.now one other }
    {
        one.cut(self.text) == other.cut(self.text)
    }

    /// Whether the party whose name stands at a part is the source or the destination of an item.
    pub(super) fn concerns(&self, party: Part, item: ItemParts) -> bool
        ensures { result ≡ concerns self.now.text.now party item }
    {
        self.alike(item.source, party) || self.alike(item.destination, party)
    }

    /// Whether a registered item is the same as one that is written: source, credential and destination are.
    pub(super) fn like_item(&self, written: ItemParts, known: Item) -> bool
        ensures { result ≡ like_item self.now.text.now written known }
    {
        match item_at(self.text, known.part.place) {
            Some(first) => {
                self.alike(first.source, written.source)
                    && self.alike(first.credential, written.credential)
                    && self.alike(first.destination, written.destination)
            }
            None => false,
        }
    }

    /// Whether a registered item has the credential that is written at a part.
    pub(super) fn like_credential(&self, credential: Part, known: Item) -> bool
        ensures { result ≡ like_credential self.now.text.now credential known }
    {
        match item_at(self.text, known.part.place) {
            Some(first) => self.alike(first.credential, credential),
            None => false,
        }
    }
}
