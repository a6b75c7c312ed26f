ghost use Rattle.std.specs.Prelude.{◌≡◌};
ghost use Rattle.book.specs.Faults.{fault_number};

/// What is wrong with a text, or with a line of it.
#[derive(Clone, Copy, PartialEq, Eq, Debug)]
pub enum Fault {
    /// The text has more bytes than a book may have.
    TooLong,
    /// The line has none of the four forms, or lacks the byte that ends it.
    NoForm,
    /// A name of one letter.
    OneLetter,
    /// A party is enrolled for a second time.
    EnrolledBefore,
    /// An item's source or destination is not enrolled on an earlier line.
    NotEnrolled,
    /// The owner of a rule is neither the source nor the destination of a body item.
    Strange,
    /// One party, item or rule more than a house may have, or one item more than a body may have.
    TooMany,
    /// A second line asks for an item.
    SecondAsk,
}

impl From<Fault> for u8 {
    ghost from_gives = { λ f n. n ≡ fault_number f };

    /// The number that stands for a fault outside the program.
    fn from(fault: Fault) -> u8 {
        match fault {
            Fault::TooLong => 1,
            Fault::NoForm => 2,
            Fault::OneLetter => 3,
            Fault::EnrolledBefore => 4,
            Fault::NotEnrolled => 5,
            Fault::Strange => 6,
            Fault::TooMany => 7,
            Fault::SecondAsk => 8,
        }
    }
}
