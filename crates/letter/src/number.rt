ghost use Rattle.std.specs.Prelude.{◌≡◌, ◌^◌, ◌<◌, ◌≤◌, ◌++◌, length, drop};
ghost use Rattle.letter.specs.Numbers.{leb, value_of, NumberRead, with_contents};

use crate::refusal::Refusal;

/// The most groups of seven bits that a number may have.
pub(crate) const MOST_GROUPS: usize = 3;

/// The top bit of a group: another group follows.
const TOP_BIT: u8 = 0x80;

/// The number at the front of the bytes, and the bytes behind it.
pub fn read_number(bytes: &[u8]) -> Result<(u32, &[u8]), Refusal>
    ensures { NumberRead bytes.now (with_contents (λ x. x.now) result) }
{
    match bytes {
        [last, rest @ ..] if *last < TOP_BIT => Ok((u32::from(*last), rest)),
        // The last of several groups is never 0.
        [_, 0, ..] => Err(Refusal::Malformed),
        [first, last, rest @ ..] if *last < TOP_BIT => Ok((spelled(&[*first, *last]), rest)),
        [_, _, 0, ..] => Err(Refusal::Malformed),
        [first, second, last, rest @ ..] if *last < TOP_BIT => {
            Ok((spelled(&[*first, *second, *last]), rest))
        }
        [_, _, _, ..] => Err(Refusal::Malformed),
        _ => Err(Refusal::CutShort),
    }
}

/// The number that at most three groups spell.
fn spelled(groups: &[u8]) -> u32
    requires { length groups.now ≤ 3 }
    ensures { result ≡ value_of groups.now }
{
    groups
        .iter()
        .rev()
        .fold(0, |value, &group| (value << 7) | u32::from(group & 0x7F))
}

/// Writes the number to the front of `out`, and answers its length.
#[tactic(auto, using(crate::proofs::Places::ends, crate::proofs::Places::last, crate::proofs::Places::leb_short))]
pub(crate) fn write_number(number: u32, out: &mut [u8]) -> usize
    requires { (number < 2 ^ 21) × (3 ≤ length out.old) }
    ensures end { (result ≡ length (leb number)) × (length (leb number) ≤ 3) }
    ensures bytes { out.new ≡ leb number ++ drop (length (leb number)) out.old }
{
    let mut left = number;
    for (place, group) in out.iter_mut().enumerate() {
        if left < 0x80 {
            *group = left as u8;
            return place + 1;
        }
        *group = 0x80 | (left & 0x7F) as u8;
        left >>= 7;
    }
    // `out` has room for all three groups.
    unreachable!()
}
