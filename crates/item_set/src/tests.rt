ghost use Rattle.std.specs.Prelude.{◌≡◌, Ok};

use crate::ItemSet;
use std::alloc::AllocError;

/// A clone is the same set, and there is always one.
fn copied(set: &ItemSet) -> Result<ItemSet, AllocError>
    ensures { result ≡ Ok set.now }
{
    set.clone()
}

#[test]
fn in_and_out(rt: HostRuntime) {
    let mut set = ItemSet::empty();
    assert_eq!(rt; set.count(), 0);
    assert_eq!(rt; set.lowest(), None);
    for item in [255u8, 64, 63, 0, 128] {
        assert!(rt; !set.contains(item));
        set.insert(item);
        set.insert(item);
        assert!(rt; set.contains(item));
        assert_eq!(rt; set.lowest(), Some(item.min(set.lowest().unwrap_or(item))));
    }
    assert_eq!(rt; set.count(), 5);
    assert!(rt; copied(&set).is_ok_and(|copy| copy == set));
    set.remove(0);
    set.remove(1);
    assert_eq!(rt; set.lowest(), Some(63));
    assert_eq!(rt; set.count(), 4);
}

#[test]
fn all_items(rt: HostRuntime) {
    let mut set = ItemSet::empty();
    for item in 0u8..=255 {
        set.insert(item);
    }
    assert_eq!(rt; set.count(), 256);
    let mut half = ItemSet::empty();
    half.insert(7);
    half.unite(&set);
    assert_eq!(rt; half.count(), 256);
    for item in 0u8..255 {
        set.remove(item);
    }
    assert_eq!(rt; set.lowest(), Some(255));
}
