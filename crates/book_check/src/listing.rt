//! A text that grows line by line.
ghost use Rattle.std.specs.Prelude.{◌≡◌, [], OnOk};
ghost use Rattle.std.specs.List.{flat_map};
ghost use Rattle.book.specs.Laws.{cut_out};
ghost use Rattle.book.specs.declared.parts.Part.{Part};
ghost use Rattle.house.specs.View.{rule_view};
ghost use Rattle.house.specs.House.{view};
ghost use Rattle.book_check.specs.Report.{numbered_line, numbered, spaced, rule_line, ask_line, refusal_line, view_listing};
ghost use Rattle.book_check.specs.Listing.{Puts};

use book::Part;
use house::{House, Item, Refusal, Rule};
use std::alloc::{AllocError, Global};

/// What stands somewhere in a book.
trait Placed {
    ghost part_of: { Self → Part };

    fn part(&self) -> Part
        ensures { result ≡ part_of self.now };
}

impl Placed for Part {
    ghost part_of = { λ p. p };

    fn part(&self) -> Part {
        *self
    }
}

impl Placed for Item {
    ghost part_of = { λ i. i.part };

    fn part(&self) -> Part {
        self.part
    }
}

/// The text that is printed of a book, as far as it is made.
// Lines are formatted and then copied: a write to a `Vec` fails with an IO error, and a listing for want of memory alone.
#[derive(Drop)]
pub(crate) struct Listing<'a> {
    heap: Global,
    book: &'a [u8],
    out: Vec<u8>,
}

impl<'a> Listing<'a> {
    /// No text yet.
    pub(crate) fn new(heap: Global, book: &'a [u8]) -> Listing<'a>
        ensures book { result.book ≡ book.entry }
        ensures out { result.out.items ≡ [] }
    {
        Listing {
            heap,
            book,
            out: Vec::new(heap),
        }
    }

    /// The text.
    pub(crate) fn into_text(self) -> Vec<u8>
        ensures { result ≡ self.entry.out }
    {
        let Listing { out, .. } = self;
        out
    }

    /// `party 0 Seal`: a word, a number and what stands at a part of the book.
    fn put_part(&mut self, word: &str, number: usize, part: Part) -> Result<(), AllocError>
        ensures { OnOk result (Puts self.old self.new (numbered_line word.now number (cut_out self.old.book.now part))) }
    {
        let front = format!(in self.heap; "{word} {number} ")?;
        self.out.extend_from_slice(front.as_bytes())?;
        self.out.extend_from_slice(part.cut(self.book))?;
        self.out.extend_from_slice(b"\n")
    }

    /// A line for each entry, with its number.
    fn put_parts<T: Placed>(&mut self, word: &str, entries: &[T]) -> Result<(), AllocError>
        ensures { OnOk result (Puts self.old self.new (numbered (λ n x. numbered_line word.now n (cut_out self.old.book.now (T.part_of x))) 0 entries.now)) }
    {
        for (number, entry) in entries.iter().enumerate() {
            self.put_part(word, number, entry.part())?;
        }
        Ok(())
    }

    /// `hold 0` or `rule 2 if 1 5`.
    // No `Display` of `Rule`: these are the words of this listing, and it would be no shorter.
    fn put_rule(&mut self, rule: &Rule) -> Result<(), AllocError>
        ensures { OnOk result (Puts self.old self.new (rule_line (rule_view rule.now))) }
    {
        let body = rule.body.as_slice();
        let head = rule.head;
        if body.is_empty() {
            let line = format!(in self.heap; "hold {head}\n")?;
            return self.out.extend_from_slice(line.as_bytes());
        }
        let front = format!(in self.heap; "rule {head} if")?;
        self.out.extend_from_slice(front.as_bytes())?;
        for number in body {
            let more = format!(in self.heap; " {number}")?;
            self.out.extend_from_slice(more.as_bytes())?;
        }
        self.out.extend_from_slice(b"\n")
    }

    fn put_rules(&mut self, rules: &[Rule]) -> Result<(), AllocError>
        ensures { OnOk result (Puts self.old self.new (flat_map (λ r. rule_line (rule_view r)) rules.now)) }
    {
        for rule in rules {
            self.put_rule(rule)?;
        }
        Ok(())
    }

    fn put_asked(&mut self, asked: Option<u8>) -> Result<(), AllocError>
        ensures { OnOk result (Puts self.old self.new (ask_line asked)) }
    {
        let Some(item) = asked else {
            return Ok(());
        };
        let line = format!(in self.heap; "ask {item}\n")?;
        self.out.extend_from_slice(line.as_bytes())
    }

    /// The parties, items and rules of a house, and what it asks for.
    pub(crate) fn put_house(&mut self, house: &House) -> Result<(), AllocError>
        ensures { OnOk result (Puts self.old self.new (view_listing self.old.book.now (view house.now))) }
    {
        self.put_parts("party", house.parties())?;
        self.put_parts("item", house.items())?;
        self.put_rules(house.rules())?;
        self.put_asked(house.asked())
    }

    /// Why the book is refused.
    pub(crate) fn put_refusal(&mut self, refusal: Refusal) -> Result<(), AllocError>
        ensures { OnOk result (Puts self.old self.new (refusal_line refusal)) }
    {
        let line = format!(in self.heap; "{refusal}\n")?;
        self.out.extend_from_slice(line.as_bytes())
    }
}
