use crate::Links;
use std::mem::size_of;

#[test]
fn chains(rt: HostRuntime) {
    let mut links = Links::<(), 6>::none(());
    assert_eq!(rt; links.latest(7), None);
    for key in [7u8, 255, 7, 0, 7] {
        assert!(rt; links.push(key, ()).is_ok());
    }
    assert_eq!(rt; links.len(), 5);
    assert_eq!(rt; links.latest(7), Some(4));
    assert_eq!(rt; links.earlier(4), Some(2));
    assert_eq!(rt; links.earlier(2), Some(0));
    assert_eq!(rt; links.earlier(0), None);
    assert_eq!(rt; links.latest(255), Some(1));
    assert_eq!(rt; links.earlier(1), None);
    assert_eq!(rt; links.latest(1), None);
    assert_eq!(rt; links.earlier(5), None);
    assert!(rt; links.push(1, ()).is_ok());
    assert!(rt; links.push(1, ()).is_err());
    assert_eq!(rt; links.len(), 6);
}

#[test]
fn values(rt: HostRuntime) {
    let mut links = Links::<u16, 4096>::none(0);
    assert_eq!(rt; links.value(0), None);
    for number in 0u16..4096 {
        assert!(rt; links.push((number % 3) as u8, 2 * number).is_ok());
    }
    assert!(rt; links.push(0, 1).is_err());
    assert_eq!(rt; links.len(), 4096);
    assert_eq!(rt; links.latest(2), Some(4094));
    assert_eq!(rt; links.value(4094), Some(8188));
    assert_eq!(rt; links.earlier(4094), Some(4091));
    assert_eq!(rt; links.value(4091), Some(8182));
    assert_eq!(rt; links.latest(3), None);
    assert_eq!(rt; links.value(4095), Some(8190));
    assert_eq!(rt; links.value(4096), None);
}

#[test]
fn entries_of_four_and_six_bytes(rt: HostRuntime) {
    assert_eq!(rt; size_of::<Links<(), 512>>(), 4 * 512 + 8 + 512);
    assert_eq!(rt; size_of::<Links<u16, 4096>>(), 6 * 4096 + 8 + 512);
}
