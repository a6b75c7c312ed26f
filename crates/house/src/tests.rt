ghost use Rattle.std.specs.Prelude.{◌≡◌, Ok};

use crate::House;
use std::alloc::AllocError;

/// A clone is the same house, and there is always one.
fn copied(house: &House) -> Result<House, AllocError>
    ensures { result ≡ Ok house.now }
{
    house.clone()
}

#[test]
fn an_empty_house(rt: HostRuntime) {
    let house = House::empty();
    assert_eq!(rt; house.parties().len(), 0);
    assert_eq!(rt; house.items().len(), 0);
    assert_eq!(rt; house.rules().len(), 0);
    assert_eq!(rt; house.text_length(), 0);
    assert_eq!(rt; house.asked(), None);
    assert!(rt; house.parties().get(0).is_none());
    assert!(rt; house.items().get(0).is_none());
    assert!(rt; house.rules().get(0).is_none());
    assert!(rt; copied(&house).is_ok_and(|copy| copy.text_length() == 0));
}
