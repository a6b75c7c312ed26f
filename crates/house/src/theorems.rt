//! Theorems about the definitions: each is the contract of a function.
ghost use Rattle.house.specs.BookLaw.{BookLaw};
ghost use Rattle.house.specs.RegisterLaw.{RegisterLaw};
ghost use Rattle.house.specs.Worked.{Worked};

/// A text is read to what its lines say, one after the other, or refused for the first line that is at fault.
pub fn book_law()
    ensures { BookLaw }
{}

/// Nothing is enrolled, registered or put into a body twice, and the numbers of an entry are those of its names and credential.
pub fn register_law()
    ensures { RegisterLaw }
{}

/// What reading gives for worked books.
pub fn worked_books()
    ensures { Worked }
{}
