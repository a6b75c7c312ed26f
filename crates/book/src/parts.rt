ghost use Rattle.std.specs.Prelude.{◌≡◌};
ghost use Rattle.book.specs.Laws.{cut_out};

/// A part of the text: where it begins, and how many bytes it has.
// No slice: parts are kept in fixed memory without the text.
#[derive(Clone, Copy, PartialEq, Eq, Debug)]
pub struct Part {
    pub place: usize,
    pub length: usize,
}

impl Part {
    /// The bytes at the part, as far as the text has them.
    pub fn cut(self, text: &[u8]) -> &[u8]
        ensures { result.now ≡ cut_out text.now self }
    {
        let rest = &text[self.place.min(text.len())..];
        &rest[..self.length.min(rest.len())]
    }
}

/// Where an item is written, and where its source, its credential and its destination are.
#[derive(Clone, Copy, PartialEq, Eq, Debug)]
pub struct ItemParts {
    pub whole: Part,
    pub source: Part,
    pub credential: Part,
    pub destination: Part,
    /// Whether some name of the item is a single letter. The parts count whatever it says.
    pub single: bool,
}

/// What a line says, by the places of its names and items.
#[derive(Clone, Copy, PartialEq, Eq, Debug)]
pub enum Line {
    /// A party is enrolled.
    Party(Part),
    /// An item is held: a rule with an empty body.
    Hold(ItemParts),
    /// A head and a body of `count` items, as written, the first of which is at `body`; `Reader::item` reads each.
    // A place and a count: nothing is copied, however long the body is.
    Rule {
        head: ItemParts,
        body: usize,
        count: usize,
    },
    /// An item is asked for.
    Ask(ItemParts),
}
