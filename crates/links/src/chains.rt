ghost use Rattle.std.specs.Prelude.{◌≡◌, ⊤, length};
ghost use Rattle.table.specs.Held.{held};
ghost use Rattle.links.specs.Chain.{HoldLatest, HoldEarlier};

use std::alloc::AllocError;
use table::Table;

mod link;
mod methods;

use link::Link;

/// A key, what is kept with it, and the latest entry before this one that has the key.
#[derive(Clone, Copy)]
struct Entry<T> {
    key: u8,
    value: T,
    earlier: Link,
}

/// At most `N` entries, each with a key below 256 and a value, and for each key the latest entry that has it.
// Numbers of entries, not boxes or a map: the memory is fixed.
pub struct Links<T, const N: usize> {
    entries: Table<Entry<T>, N>,
    latest: [Link; 256],
    ghost all: { length latest ≡ 256 },
    ghost latest_held: { HoldLatest (held entries) latest },
    ghost earlier_held: { HoldEarlier (held entries) },
}

// Not derived: `Clone` is refused over the ghost fields of a generic type. No `Model`: its value would have to have the unused
// entries too, for `Copy`.
impl<T: Copy, const N: usize> Clone for Links<T, N> {
    ghost is_clone = { λ x y. y ≡ x };

    ghost is_infallible = { λ _. ⊤ };

    fn clone(&self) -> Result<Links<T, N>, AllocError> {
        Ok(*self)
    }
}

impl<T: Copy, const N: usize> Copy for Links<T, N> {}
