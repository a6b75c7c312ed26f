ghost use Rattle.std.specs.Prelude.{◌≡◌};
ghost use Rattle.house.specs.View.{empty_view};
ghost use Rattle.house.specs.Tables.{tables_view};

use super::Tables;
use crate::entries::{Item, Rule};
use book::Part;
use table::Table;

impl Tables {
    /// Tables that hold nothing.
    pub(crate) fn empty() -> Tables
        ensures { tables_view 0 result ≡ empty_view }
    {
        let no_part = Part {
            place: 0,
            length: 0,
        };
        let no_item = Item {
            source: 0,
            destination: 0,
            credential: 0,
            part: no_part,
        };
        let no_rule = Rule {
            head: 0,
            body: Table::new(0),
        };
        Tables {
            parties: Table::new(no_part),
            items: Table::new(no_item),
            rules: Table::new(no_rule),
            asked: None,
        }
    }
}
