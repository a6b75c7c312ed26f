ghost use Rattle.house.specs.Filling.{TablesRead};

use crate::Refusal;
use crate::tables::Tables;
use book::{Fault, Reader};

mod body;
mod bytes;
mod lines;
mod lookups;
mod register;

/// The most bytes of a book.
pub const MOST_BYTES: usize = 32768;

/// A book being read: its text, and the tables that the lines so far have filled.
// Each step says that the text stays: no type says so of two drafts, but one that has the text as a parameter again.
#[derive(Drop)]
struct Draft<'a> {
    text: &'a [u8],
    tables: Tables,
}

/// The tables of a whole book, line after line, or the first fault.
pub(crate) fn tables_of(text: &[u8]) -> Result<Tables, Refusal>
    ensures { TablesRead text.now result }
{
    if text.len() > MOST_BYTES {
        return Err(Refusal {
            fault: Fault::TooLong,
            line: 0,
        });
    }
    let mut draft = Draft {
        text,
        tables: Tables::empty(),
    };
    let mut reader = Reader::new(text, 0);
    // A refused line does not move the reader, so an iterator of lines would need a flag for its end.
    let mut line = 1;
    while !reader.at_end() {
        draft
            .next_line(&mut reader)
            .map_err(|fault| Refusal { fault, line })?;
        line += 1;
    }
    Ok(draft.tables)
}
