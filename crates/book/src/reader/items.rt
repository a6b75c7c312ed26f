ghost use Rattle.std.specs.Prelude.{◌≡◌, [], ◌∷◌};
ghost use Rattle.book.specs.Reading.{word_in, terms_in, credential_in, item_in};
ghost use Rattle.book.specs.Places.{left, Reads, any_one_letter, credential_part, credential_size, item_parts, item_size};
ghost use Rattle.book.specs.Lines.{ItemRead};
ghost use Rattle.book.specs.Signs.{sign_in, sign_of, sign_code, terms_size};

use super::Reader;
use crate::parts::{ItemParts, Part};

/// The most terms behind the first.
const MORE_TERMS: u8 = 3;

/// The signs that part an item.
#[derive(Clone, Copy, PartialEq, Eq, Debug)]
pub(crate) enum Sign {
    Caret,
    Dot,
    Open,
    Comma,
    Close,
    Arrow,
}

// An Option and no TryFrom: a byte that is no sign is no error.
fn sign_of(c: char) -> Option<Sign>
    ensures { result ≡ sign_of c }
{
    match c {
        '^' => Some(Sign::Caret),
        '.' => Some(Sign::Dot),
        '(' => Some(Sign::Open),
        ',' => Some(Sign::Comma),
        ')' => Some(Sign::Close),
        '>' => Some(Sign::Arrow),
        _ => None,
    }
}

impl<'a> Reader<'a> {
    /// Moves past the sign at the place, if there is one.
    fn sign(&mut self) -> Option<Sign>
        ensures { Reads (sign_in (left self.old)) self.old (λ _ s. s) (λ _. 1) result self.new }
    {
        let byte = self.rest().first().copied()?;
        let sign = sign_of(char::from(byte))?;
        self.place += 1;
        Some(sign)
    }

    /// Moves past the sign at the place; none if it is another one.
    fn expect(&mut self, sign: Sign) -> Option<()>
        ensures { Reads (word_in (sign_code sign ∷ []) (left self.old)) self.old (λ _ u. u) (λ _. 1) result self.new }
    {
        (self.sign()? == sign).then_some(())
    }

    /// Moves over the terms behind the first, at most `most`, and the closing sign; answers whether one has one letter.
    // No Option in disguise: whether there are terms is the `Some`.
    fn terms(&mut self, most: u8) -> Option<bool>
        ensures { Reads (terms_in most (left self.old)) self.old (λ _ ts. any_one_letter ts) terms_size result self.new }
    {
        match self.sign()? {
            Sign::Close => Some(false),
            Sign::Comma => {
                let more = most.checked_sub(1)?;
                let term = self.name()?;
                let single = self.terms(more)?;
                Some(term.length == 1 || single)
            }
            _ => None,
        }
    }

    /// Moves over the credential at the place; answers where it is, and whether a name in it has one letter.
    // No Option in disguise: the part counts whatever the flag says.
    fn credential(&mut self) -> Option<(Part, bool)>
        ensures { Reads (credential_in (left self.old)) self.old credential_part credential_size result self.new }
    {
        let place = self.place;
        let issuer = self.name()?;
        self.expect(Sign::Dot)?;
        let name = self.name()?;
        self.expect(Sign::Open)?;
        let term = self.name()?;
        let single = self.terms(MORE_TERMS)?;
        let part = Part {
            place,
            length: self.place - place,
        };
        let letter = [issuer.length, name.length, term.length].contains(&1);
        Some((part, letter || single))
    }

    /// Moves past the item at the place, if there is one; else it stays.
    pub fn item(&mut self) -> Option<ItemParts>
        ensures read { ItemRead self.old result self.new }
        ensures answer { Reads (item_in (left self.old)) self.old item_parts item_size result self.new }
    {
        let place = self.place;
        let mut ahead = *self;
        let source = ahead.name()?;
        ahead.expect(Sign::Caret)?;
        let (credential, single) = ahead.credential()?;
        ahead.expect(Sign::Arrow)?;
        let destination = ahead.name()?;
        let whole = Part {
            place,
            length: ahead.place - place,
        };
        let letter = [source.length, destination.length].contains(&1);
        *self = ahead;
        Some(ItemParts {
            whole,
            source,
            credential,
            destination,
            single: letter || single,
        })
    }
}
