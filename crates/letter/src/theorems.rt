//! Theorems about the definitions: each is the contract of a function.
ghost use Rattle.letter.specs.Numbers.{EncodingLaw};
ghost use Rattle.letter.specs.Unique.{OneAnswer};
ghost use Rattle.letter.specs.Worked.{Worked};

/// The bytes of a number are the only groups of seven bits that are whole and spell it.
pub fn encoding_law()
    ensures { EncodingLaw }
{}

/// For all bytes, reading a number and reading a letter have one answer each.
pub fn one_answer()
    ensures { OneAnswer }
{}

/// The worked values of the format.
pub fn worked_values()
    ensures { Worked }
{}
