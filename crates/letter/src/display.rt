ghost use Rattle.std.specs.Prelude.{◌≡◌, Some};
ghost use Rattle.letter.specs.Names.{kind_name, letter_name};

use crate::letter::{Kind, Letter};
use std::fmt;

impl Kind {
    /// The kind in words.
    pub fn name(self) -> &'static str
        ensures { result.now ≡ kind_name self }
    {
        match self {
            Kind::Request => "request",
            Kind::Disclosure => "disclosure",
            Kind::RequestAck => "request-ack",
            Kind::DisclosureAck => "disclosure-ack",
        }
    }
}

impl fmt::Display for Kind {
    ghost output = { λ k. Some (kind_name k) };

    fn fmt<W: fmt::Write>(&self, f: &mut fmt::Formatter<W>) -> fmt::Result {
        f.write_str(self.name())
    }
}

impl fmt::Display for Letter {
    ghost output = { λ l. Some (letter_name l) };

    fn fmt<W: fmt::Write>(&self, f: &mut fmt::Formatter<W>) -> fmt::Result {
        write!(f, "{} {}", self.kind, self.item)
    }
}
