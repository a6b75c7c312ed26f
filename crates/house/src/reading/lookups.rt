ghost use Rattle.std.specs.Prelude.{◌≡◌};
ghost use Rattle.table.specs.Held.{held};
ghost use Rattle.house.specs.Filling.{found_in, alike, ends_enrolled, like_item, like_credential};

use super::Draft;
use book::{ItemParts, Part};

// One chain for each: a generic one was tried, and the proof does not close, since nothing is known there of a test that is
// handed on to `position`.
impl Draft<'_> {
    /// The number of the party with the name that is written at a part.
    pub(super) fn party_named(&self, name: Part) -> Option<u8>
        ensures { result ≡ found_in (λ p. alike self.now.text.now p name) (held self.now.tables.parties) }
    {
        let place = self
            .tables
            .parties
            .as_slice()
            .iter()
            .position(|party| self.alike(*party, name))?;
        u8::try_from(place).ok()
    }

    /// Whether the source and the destination of an item are enrolled.
    pub(super) fn enrols_ends(&self, item: ItemParts) -> bool
        ensures { result ≡ ends_enrolled self.now.text.now (held self.now.tables.parties) item }
    {
        self.party_named(item.source).is_some() && self.party_named(item.destination).is_some()
    }

    /// The number of a registered item that is the same as one that is written.
    pub(super) fn item_like(&self, item: ItemParts) -> Option<u8>
        ensures { result ≡ found_in (like_item self.now.text.now item) (held self.now.tables.items) }
    {
        let place = self
            .tables
            .items
            .as_slice()
            .iter()
            .position(|known| self.like_item(item, *known))?;
        u8::try_from(place).ok()
    }

    /// The number of the first registered item with the credential that is written at a part.
    pub(super) fn credential_like(&self, credential: Part) -> Option<u8>
        ensures { result ≡ found_in (like_credential self.now.text.now credential) (held self.now.tables.items) }
    {
        let place = self
            .tables
            .items
            .as_slice()
            .iter()
            .position(|known| self.like_credential(credential, *known))?;
        u8::try_from(place).ok()
    }
}
