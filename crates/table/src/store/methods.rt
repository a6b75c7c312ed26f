ghost use Rattle.std.specs.Prelude.{◌≡◌, [], length};
ghost use Rattle.table.specs.Held.{held, Read, push_answer, pushed};

use super::{Full, Table};

impl<T: Copy, const N: usize> Table<T, N> {
    /// A table that holds nothing; `filler` stands in the unused slots.
    pub fn new(filler: T) -> Self
        ensures { held result ≡ [] }
    {
        Table {
            slots: [filler; N],
            len: 0,
        }
    }

    /// How many values the table holds.
    pub fn len(&self) -> usize
        ensures { result ≡ length (held self.now) }
    {
        self.as_slice().len()
    }

    /// The value at a place.
    pub fn get(&self, place: usize) -> Option<T>
        ensures { Read (held self.now) place result }
    {
        self.as_slice().get(place).copied()
    }

    /// All the values, in order.
    pub fn as_slice(&self) -> &[T]
        ensures { result.now ≡ held self.now }
    {
        &self.slots[..self.len]
    }

    /// Puts a value behind the others, unless the table is full.
    pub fn push(&mut self, value: T) -> Result<(), Full>
        ensures answer { result ≡ push_answer N (held self.old) }
        ensures after { held self.new ≡ pushed N (held self.old) value }
    {
        // Not by `get_mut`: it does not say what the slots are afterwards.
        if self.len == N {
            return Err(Full);
        }
        self.slots[self.len] = value;
        self.len += 1;
        Ok(())
    }

    /// Empties the table.
    pub fn clear(&mut self)
        ensures { held self.new ≡ [] }
    {
        self.len = 0;
    }
}
