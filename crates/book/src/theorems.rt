//! Theorems about the definitions: each is the contract of a function.
ghost use Rattle.book.specs.Reading.{InverseLaw};
ghost use Rattle.book.specs.Laws.{ItemLaw, LineEndLaw, LinePlacesLaw, PlacesLaw};

/// A line is read exactly where a good line is written, and it is that line.
pub fn inverse_law()
    ensures { InverseLaw }
{}

/// The same for an item.
pub fn item_law()
    ensures { ItemLaw }
{}

/// The places of names, items and bodies cut just these out of the text, and so do those of a whole line.
pub fn places_law()
    ensures places { PlacesLaw }
    ensures lines { LinePlacesLaw }
{}

/// The byte that ends a line stands nowhere else in it.
pub fn line_end_law()
    ensures { LineEndLaw }
{}
