ghost use Rattle.house.specs.House.{view};
ghost use Rattle.house.specs.Books.{house_read};
ghost use Rattle.house.specs.Answer.{Answers};

use super::House;
use crate::Refusal;
use crate::reading::tables_of;

/// Reads a book into a house. A text that is refused leaves an empty house.
pub fn read(text: &[u8], house: &mut House) -> Result<(), Refusal>
    ensures { Answers (house_read text.now) result (view house.new) }
{
    match tables_of(text) {
        Ok(tables) => {
            *house = House {
                tables,
                text_length: text.len(),
            };
            Ok(())
        }
        Err(refusal) => {
            *house = House::empty();
            Err(refusal)
        }
    }
}
