ghost use Rattle.std.specs.Prelude.{◌≡◌};
ghost use Rattle.letter.specs.Letters.{kind_number, kind_answer, is_data, goes_to_source, letter_of};

use crate::refusal::Refusal;

/// What a letter says about its item.
#[derive(Clone, Copy, PartialEq, Eq, Debug)]
pub enum Kind {
    /// The destination asks the source to disclose the item.
    Request,
    /// The source discloses the item to the destination.
    Disclosure,
    /// The source acknowledges the request.
    RequestAck,
    /// The destination acknowledges the disclosure.
    DisclosureAck,
}

impl Kind {
    /// Requests and disclosures are data letters; the others acknowledge one.
    pub fn is_data(self) -> bool
        ensures { result ≡ is_data self }
    {
        matches!(self, Kind::Request | Kind::Disclosure)
    }

    /// Whether such a letter goes to the item's source; the others go to its destination.
    pub fn goes_to_source(self) -> bool
        ensures { result ≡ goes_to_source self }
    {
        matches!(self, Kind::Request | Kind::DisclosureAck)
    }
}

/// The number of the kind on the wire.
impl From<Kind> for u8 {
    ghost from_gives = { λ k n. n ≡ kind_number k };

    fn from(kind: Kind) -> u8 {
        match kind {
            Kind::Request => 1,
            Kind::Disclosure => 2,
            Kind::RequestAck => 3,
            Kind::DisclosureAck => 4,
        }
    }
}

/// The kind with this number.
impl TryFrom<u32> for Kind {
    type Error = Refusal;

    ghost try_from_gives = { λ n r. r ≡ kind_answer n };

    fn try_from(number: u32) -> Result<Kind, Refusal> {
        match number {
            1 => Ok(Kind::Request),
            2 => Ok(Kind::Disclosure),
            3 => Ok(Kind::RequestAck),
            4 => Ok(Kind::DisclosureAck),
            _ => Err(Refusal::NoSuchKind),
        }
    }
}

/// A protocol message: what is said about one item, which goes by its number.
#[derive(Clone, Copy, PartialEq, Eq, Debug)]
pub struct Letter {
    pub kind: Kind,
    pub item: u8,
}

impl Letter {
    /// The letter that two numbers from outside name; the kind is judged first.
    // Not a `TryFrom` of a pair, which would not say which number is which.
    pub fn from_numbers(kind: u32, item: u32) -> Result<Letter, Refusal>
        ensures { result ≡ letter_of kind item }
    {
        let kind = Kind::try_from(kind)?;
        let item = u8::try_from(item).map_err(|_| Refusal::ItemTooLarge)?;
        Ok(Letter { kind, item })
    }
}
