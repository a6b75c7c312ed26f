ghost use Rattle.std.specs.Prelude.{◌≡◌, ◌≤◌, true};
ghost use Rattle.table.specs.Held.{held};
ghost use Rattle.house.specs.View.{rule_views};
ghost use Rattle.house.specs.Soundness.{sound};

use crate::tables::Tables;

mod filled;
mod looks;

pub use filled::read;

/// The rules of all parties, as the tables of a book that was read, and the length of its text.
// No `Model`: its value would have to have the tables' unused slots too, for `Copy`.
#[derive(Clone, Copy)]
pub struct House {
    tables: Tables,
    text_length: usize,
    ghost sound: { sound (held tables.parties) (held tables.items) (rule_views (held tables.rules)) tables.asked text_length ≡ true },
    ghost short: { text_length ≤ 32768 },
}
