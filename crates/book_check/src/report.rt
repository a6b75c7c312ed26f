//! The text that is printed for a book.
ghost use Rattle.std.specs.Prelude.{◌≡◌, IfOk};
ghost use Rattle.book_check.specs.Report.{printed, PrefixLaw};

use crate::listing::Listing;
use house::{House, read};
use std::alloc::{AllocError, Global};

/// A theorem: what is printed hangs on the first 32,769 bytes alone.
pub fn prefix_law()
    ensures { PrefixLaw }
{}

/// The parties, items and rules of a book and what it asks for, a line each; or its refusal. Nothing is promised
/// where there is no memory for the text.
pub fn report(heap: Global, book: &[u8]) -> Result<Vec<u8>, AllocError>
    ensures { IfOk result (λ out. out.items ≡ printed book.now) }
{
    let mut listing = Listing::new(heap, book);
    let mut house = House::empty();
    match read(book, &mut house) {
        Ok(()) => listing.put_house(&house)?,
        Err(refusal) => listing.put_refusal(refusal)?,
    }
    Ok(listing.into_text())
}
