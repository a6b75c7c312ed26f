ghost use Rattle.std.specs.Prelude.{◌≡◌, Some};
ghost use Rattle.letter.specs.Names.{refusal_name};
ghost use Rattle.letter.specs.Refusals.{refusal_number};

use std::error::Error;
use std::fmt;

/// Why bytes or numbers are turned down.
#[derive(Clone, Copy, PartialEq, Eq, Debug)]
pub enum Refusal {
    /// The bytes end inside a number.
    CutShort,
    /// A number is not in its shortest form, or has more groups than allowed.
    Malformed,
    /// The kind is not 1 to 4.
    NoSuchKind,
    /// The item is above 255.
    ItemTooLarge,
    /// The buffer has too few bytes for the letter.
    BufferTooShort,
}

/// The number that stands for the refusal outside the program.
impl From<Refusal> for u8 {
    ghost from_gives = { λ e n. n ≡ refusal_number e };

    fn from(refusal: Refusal) -> u8 {
        match refusal {
            Refusal::CutShort => 41,
            Refusal::Malformed => 42,
            Refusal::NoSuchKind => 43,
            Refusal::ItemTooLarge => 44,
            Refusal::BufferTooShort => 45,
        }
    }
}

/// The refusal by its number, as `refusal 41`.
impl fmt::Display for Refusal {
    ghost output = { λ e. Some (refusal_name e) };

    fn fmt<W: fmt::Write>(&self, f: &mut fmt::Formatter<W>) -> fmt::Result {
        write!(f, "refusal {}", u8::from(*self))
    }
}

impl Error for Refusal {}
