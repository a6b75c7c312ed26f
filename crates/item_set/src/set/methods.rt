ghost use Rattle.std.specs.Prelude.{◌≡◌, ℕ, ◌/◌, ◌%◌, ◌^◌, false, not, ◌&&◌, ◌||◌, ◌==◌};
ghost use Rattle.item_set.specs.Members.{member, count_to, Lowest};

use super::{ItemSet, WORD, WORDS};

/// The place of an item's word, and the item's bit in it.
fn place_of(item: u8) -> (usize, u64)
    ensures place { result.0 ≡ item / 64 }
    ensures bit { result.1 ≡ 2 ^ (item % 64) }
{
    let item = item as usize;
    (item / WORD, 1 << (item % WORD))
}

impl ItemSet {
    /// The set without members.
    pub fn empty() -> ItemSet
        ensures { (n : ℕ) → member result n ≡ false }
    {
        ItemSet { words: [0; WORDS] }
    }

    /// Whether an item is in the set.
    pub fn contains(&self, item: u8) -> bool
        ensures { result ≡ member self.now item }
    {
        let (place, bit) = place_of(item);
        self.words[place] & bit != 0
    }

    /// Puts an item in.
    pub fn insert(&mut self, item: u8)
        ensures { (n : ℕ) → member self.new n ≡ (n == item || member self.old n) }
    {
        let (place, bit) = place_of(item);
        self.words[place] |= bit;
    }

    /// Takes an item out.
    pub fn remove(&mut self, item: u8)
        ensures { (n : ℕ) → member self.new n ≡ (not (n == item) && member self.old n) }
    {
        let (place, bit) = place_of(item);
        self.words[place] &= !bit;
    }

    /// How many items are in the set.
    pub fn count(&self) -> usize
        ensures { result ≡ count_to 256 (member self.now) }
    {
        // A loop: a chain's `sum` does not know that each word has 64 bits.
        let mut count = 0;
        for word in &self.words {
            count += word.count_ones() as usize;
        }
        count
    }

    /// The lowest item in the set; none of an empty one.
    pub fn lowest(&self) -> Option<u8>
        ensures { Lowest (member self.now) result }
    {
        let place = self.words.iter().position(|word| *word != 0)?;
        Some((WORD * place + self.words[place].trailing_zeros() as usize) as u8)
    }

    /// Puts all items of another set in.
    pub fn unite(&mut self, other: &ItemSet)
        ensures { (n : ℕ) → member self.new n ≡ (member self.old n || member other.now n) }
    {
        // Not by `zip`: it does not say what the words are afterwards.
        for (place, word) in self.words.iter_mut().enumerate() {
            *word |= other.words[place];
        }
    }
}
