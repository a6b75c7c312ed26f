ghost use Rattle.std.specs.Prelude.{◌≡◌, ⊤, ◌≤◌, length};

use std::alloc::AllocError;

mod methods;

/// At most `N` values, in the order in which they were put in. It allocates nothing.
// The kit's `ArrayVec` is no `Copy`, and a table is copied by a plain copy, which cannot fail.
pub struct Table<T, const N: usize> {
    slots: [T; N],
    len: usize,
    ghost fits: { len ≤ N },
    ghost whole: { length slots ≡ N },
}

// Not derived: `Clone` is refused over the ghost fields of a generic type. No `Model`: its value would have to have the unused
// slots too, for `Copy`.
impl<T: Copy, const N: usize> Clone for Table<T, N> {
    ghost is_clone = { λ x y. y ≡ x };

    ghost is_infallible = { λ _. ⊤ };

    fn clone(&self) -> Result<Table<T, N>, AllocError> {
        Ok(*self)
    }
}

impl<T: Copy, const N: usize> Copy for Table<T, N> {}

/// There is no room for another value.
#[derive(Clone, Copy, PartialEq, Eq, Debug)]
pub struct Full;
