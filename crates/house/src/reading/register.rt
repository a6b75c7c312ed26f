ghost use Rattle.std.specs.Prelude.{◌≡◌};
ghost use Rattle.house.specs.Filling.{Registers};

use super::Draft;
use crate::entries::Item;
use book::{Fault, ItemParts};

impl Draft<'_> {
    /// The number of an item, which is registered if it was not yet.
    pub(super) fn register(&mut self, item: ItemParts) -> Result<u8, Fault>
        ensures registers { Registers self.old.text.now self.old.tables item result self.new.tables }
        ensures same_text { self.new.text ≡ self.old.text }
    {
        if let Some(number) = self.item_like(item) {
            return Ok(number);
        }
        let source = self.party_named(item.source).ok_or(Fault::NotEnrolled)?;
        let destination = self
            .party_named(item.destination)
            .ok_or(Fault::NotEnrolled)?;
        let number = u8::try_from(self.tables.items.len()).map_err(|_| Fault::TooMany)?;
        let credential = self.credential_like(item.credential).unwrap_or(number);
        let entry = Item {
            source,
            destination,
            credential,
            part: item.whole,
        };
        self.tables.items.push(entry).map_err(|_| Fault::TooMany)?;
        Ok(number)
    }
}
