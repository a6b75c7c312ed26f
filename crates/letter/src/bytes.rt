ghost use Rattle.std.specs.Prelude.{Ok};
ghost use Rattle.letter.specs.Letters.{letter_of};
ghost use Rattle.letter.specs.Numbers.{with_contents};
ghost use Rattle.letter.specs.Bytes.{LetterRead, Written, WrittenBack, WriteRefusals};

use crate::letter::{Kind, Letter};
use crate::number::{MOST_GROUPS, read_number, write_number};
use crate::refusal::Refusal;

/// The most bytes that two numbers have.
const LONGEST: usize = 2 * MOST_GROUPS;

impl Letter {
    /// The letter at the front of the bytes, and the bytes behind it.
    pub fn read(bytes: &[u8]) -> Result<(Letter, &[u8]), Refusal>
        ensures answer { LetterRead bytes.now (with_contents (λ x. x.now) result) }
        ensures written_back { WrittenBack bytes.now (with_contents (λ x. x.now) result) }
    {
        let (kind, behind) = read_number(bytes)?;
        let kind = Kind::try_from(kind)?;
        let (item, rest) = read_number(behind)?;
        let item = u8::try_from(item).map_err(|_| Refusal::ItemTooLarge)?;
        Ok((Letter { kind, item }, rest))
    }

    /// Writes the letter to the front of `out`, and answers its length.
    pub fn write(self, out: &mut [u8]) -> Result<usize, Refusal>
        ensures { Written (Ok self) out.old result out.new }
    {
        let mut bytes = [0u8; LONGEST];
        let behind = write_number(u32::from(u8::from(self.kind)), &mut bytes);
        let length = behind + write_number(u32::from(self.item), &mut bytes[behind..]);
        // No `get_mut`: nothing would be known of the bytes of `out` after it.
        if out.len() < length {
            return Err(Refusal::BufferTooShort);
        }
        out[..length].copy_from_slice(&bytes[..length]);
        Ok(length)
    }
}

/// Writes the letter that two numbers from outside name, as `Letter::write` does.
pub fn write_numbers(kind: u32, item: u32, out: &mut [u8]) -> Result<usize, Refusal>
    ensures written { Written (letter_of kind item) out.old result out.new }
    ensures refusals { WriteRefusals kind item out.old result }
{
    Letter::from_numbers(kind, item)?.write(out)
}
