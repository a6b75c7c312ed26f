use crate::{Full, Line};

#[test]
fn round_the_end(rt: HostRuntime) {
    let mut room = [0u16; 3];
    let places = &mut room[..];
    let mut line = Line::new();
    assert_eq!(rt; line.take(places), None);
    for turn in 0u16..5 {
        assert_eq!(rt; line.put(places, 10 * turn), Ok(()));
        assert_eq!(rt; line.put(places, 10 * turn + 1), Ok(()));
        assert_eq!(rt; line.count(places), 2);
        assert_eq!(rt; line.take(places), Some(10 * turn));
        assert_eq!(rt; line.take(places), Some(10 * turn + 1));
    }
    assert_eq!(rt; line.take(places), None);
}

#[test]
fn a_full_line(rt: HostRuntime) {
    let mut room = [0u8; 2];
    let places = &mut room[..];
    let mut line = Line::new();
    assert_eq!(rt; line.put(places, 7), Ok(()));
    assert_eq!(rt; line.put(places, 8), Ok(()));
    assert_eq!(rt; line.put(places, 9), Err(Full));
    assert_eq!(rt; line.take(places), Some(7));
    assert_eq!(rt; line.put(places, 9), Ok(()));
    assert_eq!(rt; line.take(places), Some(8));
    assert_eq!(rt; line.take(places), Some(9));
}

#[test]
fn no_places(rt: HostRuntime) {
    let mut room = [0u8; 0];
    let places = &mut room[..];
    let mut line = Line::new();
    assert_eq!(rt; line.put(places, 1), Err(Full));
    assert_eq!(rt; line.count(places), 0);
    assert_eq!(rt; line.take(places), None);
}
