ghost use Rattle.std.specs.Prelude.{◌≡◌, length};

mod methods;

/// How many items one word holds.
const WORD: usize = 64;

/// How many words hold all items.
const WORDS: usize = 256 / WORD;

/// A set of items: item `n` is bit `n` mod 64 of word `n` div 64.
// No `Model`: it would owe the words back from the members, for `Copy` and `==`.
#[derive(Clone, Copy, PartialEq, Eq, Debug)]
pub struct ItemSet {
    words: [u64; WORDS],
    ghost whole: { length words ≡ 4 },
}
