use crate::number::write_number;
use crate::{Kind, Letter, Refusal, read_number, write_numbers};

/// What was read and how many bytes follow it, or the number of the refusal.
// The number, since it is what is tested.
fn told<T>(answer: Result<(T, &[u8]), Refusal>) -> Result<(T, usize), u8> {
    let (read, rest) = answer.map_err(u8::from)?;
    Ok((read, rest.len()))
}

#[test]
fn unsigned_examples_of_the_dwarf_standard(rt: HostRuntime) {
    assert_eq!(rt; told(read_number(&[0x02])), Ok((2, 0)));
    assert_eq!(rt; told(read_number(&[0x7F])), Ok((127, 0)));
    assert_eq!(rt; told(read_number(&[0x80, 0x01])), Ok((128, 0)));
    assert_eq!(rt; told(read_number(&[0x81, 0x01])), Ok((129, 0)));
    assert_eq!(rt; told(read_number(&[0xB9, 0x64])), Ok((12857, 0)));
}

fn written(number: u32) -> Option<([u8; 4], usize)> {
    if number >= 1 << 21 {
        return None;
    }
    let mut out = [0xEE; 4];
    let end = write_number(number, &mut out);
    Some((out, end))
}

#[test]
fn the_same_examples_written(rt: HostRuntime) {
    assert_eq!(rt; written(2), Some(([0x02, 0xEE, 0xEE, 0xEE], 1)));
    assert_eq!(rt; written(127), Some(([0x7F, 0xEE, 0xEE, 0xEE], 1)));
    assert_eq!(rt; written(128), Some(([0x80, 0x01, 0xEE, 0xEE], 2)));
    assert_eq!(rt; written(129), Some(([0x81, 0x01, 0xEE, 0xEE], 2)));
    assert_eq!(rt; written(12857), Some(([0xB9, 0x64, 0xEE, 0xEE], 2)));
    assert_eq!(rt; written(2097151), Some(([0xFF, 0xFF, 0x7F, 0xEE], 3)));
}

#[test]
fn numbers_and_their_refusals(rt: HostRuntime) {
    assert_eq!(rt; told(read_number(&[])), Err(41));
    assert_eq!(rt; told(read_number(&[0x80])), Err(41));
    assert_eq!(rt; told(read_number(&[0x80, 0x80])), Err(41));
    assert_eq!(rt; told(read_number(&[0x80, 0x80, 0x80])), Err(42));
    assert_eq!(rt; told(read_number(&[0x80, 0x80, 0x80, 0x01])), Err(42));
    assert_eq!(rt; told(read_number(&[0x80, 0x00])), Err(42));
    assert_eq!(rt; told(read_number(&[0x81, 0x00])), Err(42));
    assert_eq!(rt; told(read_number(&[0x81, 0x80, 0x00])), Err(42));
    assert_eq!(rt; told(read_number(&[0x00, 0x80])), Ok((0, 1)));
    assert_eq!(rt; told(read_number(&[0x80, 0x80, 0x01])), Ok((16384, 0)));
    assert_eq!(rt;
        told(read_number(&[0xFF, 0xFF, 0x7F, 0x00])),
        Ok((2097151, 1))
    );
}

#[test]
fn letters_read(rt: HostRuntime) {
    assert_eq!(rt;
        told(Letter::read(&[0x01, 0x7F])),
        Ok((
            Letter {
                kind: Kind::Request,
                item: 127,
            },
            0,
        ))
    );
    assert_eq!(rt;
        told(Letter::read(&[0x01, 0xC8, 0x01])),
        Ok((
            Letter {
                kind: Kind::Request,
                item: 200,
            },
            0,
        ))
    );
    assert_eq!(rt;
        told(Letter::read(&[0x02, 0x03, 0x80])),
        Ok((
            Letter {
                kind: Kind::Disclosure,
                item: 3,
            },
            1,
        ))
    );
    assert_eq!(rt;
        told(Letter::read(&[0x03, 0x00])),
        Ok((
            Letter {
                kind: Kind::RequestAck,
                item: 0,
            },
            0,
        ))
    );
    assert_eq!(rt;
        told(Letter::read(&[0x04, 0xFF, 0x01])),
        Ok((
            Letter {
                kind: Kind::DisclosureAck,
                item: 255,
            },
            0,
        ))
    );
}

#[test]
fn letters_turned_down(rt: HostRuntime) {
    assert_eq!(rt; told(Letter::read(&[])), Err(41));
    assert_eq!(rt; told(Letter::read(&[0x80, 0x80])), Err(41));
    assert_eq!(rt; told(Letter::read(&[0x01])), Err(41));
    assert_eq!(rt; told(Letter::read(&[0x01, 0xC8])), Err(41));
    assert_eq!(rt; told(Letter::read(&[0x81, 0x00])), Err(42));
    assert_eq!(rt; told(Letter::read(&[0x01, 0x80, 0x00])), Err(42));
    assert_eq!(rt; told(Letter::read(&[0x01, 0x80, 0x80, 0x80])), Err(42));
    assert_eq!(rt; told(Letter::read(&[0x00, 0x00])), Err(43));
    assert_eq!(rt; told(Letter::read(&[0x05])), Err(43));
    assert_eq!(rt; told(Letter::read(&[0x05, 0x00])), Err(43));
    assert_eq!(rt; told(Letter::read(&[0x01, 0x80, 0x02])), Err(44));
}

#[test]
fn letters_written(rt: HostRuntime) {
    let letter = Letter {
        kind: Kind::Request,
        item: 200,
    };
    let mut none: [u8; 0] = [];
    assert_eq!(rt; letter.write(&mut none), Err(Refusal::BufferTooShort));
    let mut one = [0xEE];
    assert_eq!(rt; letter.write(&mut one), Err(Refusal::BufferTooShort));
    assert_eq!(rt; one, [0xEE]);
    let mut two = [0xEE, 0xEE];
    assert_eq!(rt; letter.write(&mut two), Err(Refusal::BufferTooShort));
    assert_eq!(rt; two, [0xEE, 0xEE]);
    let mut three = [0xEE, 0xEE, 0xEE];
    assert_eq!(rt; letter.write(&mut three), Ok(3));
    assert_eq!(rt; three, [0x01, 0xC8, 0x01]);
    let mut five = [0xEE, 0xEE, 0xEE, 0xEE, 0xEE];
    assert_eq!(rt; letter.write(&mut five), Ok(3));
    assert_eq!(rt; five, [0x01, 0xC8, 0x01, 0xEE, 0xEE]);
}

#[test]
fn numbers_from_outside(rt: HostRuntime) {
    let mut out = [0xEE, 0xEE];
    assert_eq!(rt; write_numbers(0, 300, &mut out), Err(Refusal::NoSuchKind));
    assert_eq!(rt; write_numbers(5, 300, &mut out), Err(Refusal::NoSuchKind));
    assert_eq!(rt; write_numbers(4, 256, &mut out), Err(Refusal::ItemTooLarge));
    assert_eq!(rt;
        write_numbers(4, 200, &mut out),
        Err(Refusal::BufferTooShort)
    );
    assert_eq!(rt; out, [0xEE, 0xEE]);
    assert_eq!(rt; write_numbers(4, 3, &mut out), Ok(2));
    assert_eq!(rt; out, [0x04, 0x03]);
    assert_eq!(rt; u8::from(Refusal::BufferTooShort), 45);
}
