ghost use Rattle.std.specs.Prelude.{◌≡◌, min, length, None, ◌==◌};
ghost use Rattle.book.specs.Reading.{word_in, more_in};
ghost use Rattle.book.specs.Places.{left, Reads};
ghost use Rattle.book.specs.Lines.{LineRead, LineAnswer, form_in, form_size, line_parts, more_size, rule_form, rule_parts, rule_size};

use super::Reader;
use crate::fault::Fault;
use crate::parts::Line;

// By `let .. else`, as docs/DECISIONS.md has it: each place where a line can fail names the form fault.
impl<'a> Reader<'a> {
    /// A reader at a place of the text, or at its end where the place is past it.
    pub fn new(text: &'a [u8], place: usize) -> Reader<'a>
        ensures text { result.text ≡ text.entry }
        ensures place { result.place ≡ min place (length text.now) }
    {
        Reader {
            text,
            place: place.min(text.len()),
        }
    }

    /// Whether the whole text is read.
    pub fn at_end(&self) -> bool
        ensures { result ≡ (length (left self.now) == 0) }
    {
        self.rest().is_empty()
    }

    /// Moves past a word, if the text goes on with it; else it stays.
    fn keyword(&mut self, word: &[u8]) -> Option<()>
        ensures answer { Reads (word_in word.now (left self.old)) self.old (λ _ u. u) (λ _. length word.now) result self.new }
        ensures stays { result ≡ None → self.new ≡ self.old }
    {
        self.rest().strip_prefix(word)?;
        self.place += word.len();
        Some(())
    }

    /// Moves past the body items behind the first, each behind the word `and`, and counts them.
    fn more_items(&mut self) -> Option<usize>
        ensures { Reads (more_in (length (left self.old)) (left self.old)) self.old (λ _ is. length is) more_size result self.new }
    {
        // Counted here: an iterator would yield an `Option` for each, and counting those is no plainer.
        let mut count = 0;
        while self.keyword(b" and ").is_some() {
            self.item()?;
            count += 1;
        }
        Some(count)
    }

    /// Moves past a head and a body.
    fn rule(&mut self) -> Result<Line, Fault>
        ensures { LineAnswer (rule_form (left self.old)) self.old rule_parts rule_size result self.new }
    {
        let Some(head) = self.item() else {
            return Err(Fault::NoForm);
        };
        let Some(()) = self.keyword(b" if ") else {
            return Err(Fault::NoForm);
        };
        let body = self.place;
        let Some(_) = self.item() else {
            return Err(Fault::NoForm);
        };
        let Some(more) = self.more_items() else {
            return Err(Fault::NoForm);
        };
        Ok(Line::Rule {
            head,
            body,
            count: 1 + more,
        })
    }

    /// Moves past a line up to the byte that ends it.
    // Four `if`s: a table of words and closures would be no plainer.
    fn form(&mut self) -> Result<Line, Fault>
        ensures { LineAnswer (form_in (left self.old)) self.old line_parts form_size result self.new }
    {
        if self.keyword(b"party ").is_some() {
            let Some(name) = self.name() else {
                return Err(Fault::NoForm);
            };
            return Ok(Line::Party(name));
        }
        if self.keyword(b"hold ").is_some() {
            let Some(item) = self.item() else {
                return Err(Fault::NoForm);
            };
            return Ok(Line::Hold(item));
        }
        if self.keyword(b"rule ").is_some() {
            return self.rule();
        }
        if self.keyword(b"ask ").is_some() {
            let Some(item) = self.item() else {
                return Err(Fault::NoForm);
            };
            return Ok(Line::Ask(item));
        }
        Err(Fault::NoForm)
    }

    /// Moves past the line at the place, with the byte that ends it; stays where there is no form.
    pub fn line(&mut self) -> Result<Line, Fault>
        ensures { LineRead self.old result self.new }
    {
        let mut ahead = *self;
        let line = ahead.form()?;
        let Some(()) = ahead.keyword(b"\n") else {
            return Err(Fault::NoForm);
        };
        *self = ahead;
        Ok(line)
    }
}
