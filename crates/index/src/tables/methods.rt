ghost use Rattle.std.specs.Prelude.{◌≡◌, ℕ, ◌<◌, ◌≤◌, [], map, length};
ghost use Rattle.std.specs.List.{flat_map};
ghost use Rattle.links.specs.Keys.{keys, values};
ghost use Rattle.house.specs.House.{view};
ghost use Rattle.house.specs.View.{rule_views};
ghost use Rattle.index.specs.Uses.{Indexes, rules_from};

use super::{Index, MOST_USES};
use house::{House, Item, Rule};
use links::Links;

/// What a chain through entries goes by: the credential of an item, the head of a rule.
trait Keyed {
    ghost key_of: { Self → ℕ };

    fn key(&self) -> u8
        ensures { result ≡ key_of self.now };
}

impl Keyed for Item {
    ghost key_of = { λ i. i.credential };

    fn key(&self) -> u8 {
        self.credential
    }
}

impl Keyed for Rule {
    ghost key_of = { λ r. r.head };

    fn key(&self) -> u8 {
        self.head
    }
}

/// Puts in the entries by their keys.
fn chain<T: Keyed, const N: usize>(links: &mut Links<(), N>, entries: &[T])
    requires empty { keys links.old ≡ [] }
    requires room { length entries.now ≤ N }
    requires numbers { N < 65535 }
    ensures { keys links.new ≡ map T.key_of entries.now }
{
    for entry in entries {
        links.push(entry.key(), ()).unwrap();
    }
}

/// Puts in the body items of the rules.
fn chain_bodies(uses: &mut Links<u16, MOST_USES>, rules: &[Rule])
    requires no_items { keys uses.old ≡ [] }
    requires no_rules { values uses.old ≡ [] }
    requires few { length rules.now ≤ 512 }
    ensures items { keys uses.new ≡ flat_map (λ r. r.body) (rule_views rules.now) }
    ensures rules { values uses.new ≡ rules_from 0 (rule_views rules.now) }
{
    for (number, rule) in rules.iter().enumerate() {
        for &item in rule.body.as_slice() {
            uses.push(item, number as u16).unwrap();
        }
    }
}

impl Index {
    /// The chains of a house.
    pub fn of(house: &House) -> Index
        ensures { Indexes (view house.now) result }
    {
        house.soundness_law();
        let mut index = Index {
            uses: Links::none(0),
            heads: Links::none(()),
            credentials: Links::none(()),
        };
        chain_bodies(&mut index.uses, house.rules());
        chain(&mut index.heads, house.rules());
        chain(&mut index.credentials, house.items());
        index
    }
}
