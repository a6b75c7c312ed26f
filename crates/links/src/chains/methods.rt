ghost use Rattle.std.specs.Prelude.{◌≡◌, [], length};
ghost use Rattle.std.specs.List.{slice_get};
ghost use Rattle.links.specs.Chain.{latest, earlier};
ghost use Rattle.links.specs.Keys.{keys, values, Pushed};

use super::link::Link;
use super::{Entry, Links};
use table::{Full, Table};

impl<T: Copy, const N: usize> Links<T, N> {
    /// No entries; `filler` stands in the unused slots.
    pub fn none(filler: T) -> Self
        ensures keys { keys result ≡ [] }
        ensures values { values result ≡ [] }
    {
        let unused = Entry {
            key: 0,
            value: filler,
            earlier: Link::none(),
        };
        Links {
            entries: Table::new(unused),
            latest: [Link::none(); 256],
        }
    }

    /// How many entries there are.
    pub fn len(&self) -> usize
        ensures { result ≡ length (keys self.now) }
    {
        self.entries.len()
    }

    /// Puts an entry behind the others, unless there are `N` or 65,535.
    pub fn push(&mut self, key: u8, value: T) -> Result<(), Full>
        ensures keys { Pushed N (keys self.old) key result (keys self.new) }
        ensures values { Pushed N (values self.old) value result (values self.new) }
    {
        let number = self.len();
        if number >= u16::MAX as usize {
            return Err(Full);
        }
        let place = key as usize;
        let earlier = self.latest[place];
        self.entries.push(Entry {
            key,
            value,
            earlier,
        })?;
        self.latest[place] = Link::to(number as u16);
        Ok(())
    }

    /// The latest entry with a key.
    pub fn latest(&self, key: u8) -> Option<u16>
        ensures { result ≡ latest (keys self.now) key }
    {
        self.latest[key as usize].entry()
    }

    /// The latest entry before an entry that has the same key.
    pub fn earlier(&self, entry: u16) -> Option<u16>
        ensures { result ≡ earlier (keys self.now) entry }
    {
        self.entries.get(entry as usize)?.earlier.entry()
    }

    /// The value of an entry.
    pub fn value(&self, entry: u16) -> Option<T>
        ensures { result ≡ slice_get (values self.now) entry }
    {
        Some(self.entries.get(entry as usize)?.value)
    }
}
