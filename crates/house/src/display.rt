ghost use Rattle.std.specs.Prelude.{Some};
ghost use Rattle.house.specs.Words.{refusal_text};

use crate::Refusal;
use std::error::Error;
use std::fmt;

/// `refusal 6 line 5`: the numbers of the fault and of the line.
impl fmt::Display for Refusal {
    ghost output = { λ e. Some (refusal_text e) };

    fn fmt<W: fmt::Write>(&self, f: &mut fmt::Formatter<W>) -> fmt::Result {
        write!(f, "refusal {} line {}", u8::from(self.fault), self.line)
    }
}

impl Error for Refusal {}
