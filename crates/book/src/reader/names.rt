ghost use Rattle.std.specs.Prelude.{◌≡◌, ◌+◌, length};
ghost use Rattle.book.specs.Reading.{run, name_in};
ghost use Rattle.book.specs.Places.{left, letter_first, name_size, name_part, Reads};

use super::Reader;
use crate::parts::Part;

/// The most bytes of a name.
const LONGEST_NAME: usize = 16;

/// How many bytes at the front can stand in a name.
fn run_length(bytes: &[u8]) -> usize
    ensures { result ≡ length (run bytes.now).0 }
{
    bytes
        .iter()
        .position(|byte| !byte.is_ascii_alphanumeric())
        .unwrap_or(bytes.len())
}

fn starts_with_letter(bytes: &[u8]) -> bool
    ensures { result ≡ letter_first bytes.now }
{
    bytes.first().is_some_and(|byte| byte.is_ascii_alphabetic())
}

/// The length of the name at the front, if there is one.
fn name_length(bytes: &[u8]) -> Option<usize>
    ensures { result ≡ name_size (name_in bytes.now) }
{
    let length = run_length(bytes);
    (starts_with_letter(bytes) && length <= LONGEST_NAME).then_some(length)
}

impl<'a> Reader<'a> {
    /// The bytes from the place on.
    pub(crate) fn rest(&self) -> &'a [u8]
        ensures { result.now ≡ left self.now }
    {
        &self.text[self.place..]
    }

    /// Moves past the name at the place, if there is one.
    pub(crate) fn name(&mut self) -> Option<Part>
        ensures { Reads (name_in (left self.old)) self.old name_part length result self.new }
    {
        let length = name_length(self.rest())?;
        let place = self.place;
        self.place += length;
        Some(Part { place, length })
    }
}
