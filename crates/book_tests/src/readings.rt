use house::{House, read};
use std::alloc::Global;
use std::process::Abort;
use std::test::Fail;

/// The fault's number and the line, if a book is refused.
// The number, since it is what is tested.
pub(crate) fn verdict(book: &str) -> Result<(), (u8, usize)> {
    let mut house = House::empty();
    read(book.as_bytes(), &mut house).map_err(|refusal| (u8::from(refusal.fault), refusal.line))
}

/// The verdict on a book of three parties and these lines behind them.
// With the number, as above.
pub(crate) fn behind_three(heap: Global, lines: &str) -> Result<Result<(), (u8, usize)>, Fail> {
    let book = format!(in heap; "party Seal\nparty Port\nparty Quay\n{lines}")?;
    Ok(verdict(book.as_str()))
}

/// The fourth line is at fault.
pub(crate) fn fourth(rt: &(impl Abort + AllocGlobal), line: &str, fault: u8) -> Result<(), Fail> {
    assert_eq!(rt; behind_three(rt.alloc(), line)?, Err((fault, 4)));
    Ok(())
}

/// The lines are without fault.
pub(crate) fn fine(rt: &(impl Abort + AllocGlobal), lines: &str) -> Result<(), Fail> {
    assert_eq!(rt; behind_three(rt.alloc(), lines)?, Ok(()));
    Ok(())
}

#[test]
fn the_house_of_a_book(rt: HostRuntime) {
    let mut house = House::empty();
    let book =
        b"party Seal\nparty Port\nhold Port^Port.berth(Q1)>Seal\nrule Seal^Port.berth(Q1)>Port if Port^Port.berth(Q1)>Seal and Port^Port.berth(Q1)>Seal and Seal^Seal.ready(Q1)>Seal\nask Port^Port.berth(Q1)>Port\n";
    assert!(rt; read(book, &mut house).is_ok());
    assert_eq!(rt; house.parties().len(), 2);
    assert_eq!(rt; house.items().len(), 4);
    assert_eq!(rt; house.rules().len(), 2);
    assert_eq!(rt; house.asked(), Some(3));
    assert_eq!(rt; house.text_length(), book.len());
    assert_eq!(rt;
        house.items().get(2).map(|ready| (ready.source, ready.destination, ready.credential)),
        Some((0, 0, 2))
    );
    assert_eq!(rt;
        house.items().get(3).map(|asked| (asked.source, asked.destination, asked.credential)),
        Some((1, 1, 0))
    );
    assert!(rt;
        house.items().get(3).is_some_and(|asked| asked.part.cut(book)
            == b"Port^Port.berth(Q1)>Port".as_slice())
    );
    assert_eq!(rt; house.rules().get(1).map(|rule| rule.head), Some(1));
    assert!(rt;
        house
            .rules()
            .get(1)
            .is_some_and(|rule| rule.body.as_slice() == [0, 2].as_slice())
    );
}

#[test]
fn a_refusal_empties_the_house(rt: HostRuntime) {
    let mut house = House::empty();
    assert!(rt;
        read(
            b"party Seal\nparty Port\nask Seal^Seal.open(Box7)>Port\n",
            &mut house,
        )
        .is_ok()
    );
    assert_eq!(rt; house.items().len(), 1);
    assert!(rt; read(b"party Seal\nparty Port\nparty Port\n", &mut house).is_err());
    assert_eq!(rt; house.parties().len(), 0);
    assert_eq!(rt; house.items().len(), 0);
    assert_eq!(rt; house.asked(), None);
    assert_eq!(rt; house.text_length(), 0);
    assert!(rt; read(b"party Seal\n", &mut house).is_ok());
    assert_eq!(rt; house.parties().len(), 1);
    let held = b"party Port\nhold Port^Port.berth(Q1)>Port\n";
    assert!(rt; read(held, &mut house).is_ok());
    assert_eq!(rt; house.rules().len(), 1);
    assert!(rt; read(b"party Port\nhold Port^Port.berth(Q1)>Port\n?", &mut house).is_err());
    assert_eq!(rt; house.rules().len(), 0);
}

#[test]
fn one_credential_between_other_parties(rt: HostRuntime) -> Result<(), Fail> {
    let mut house = House::empty();
    let book =
        "party Seal\nparty Port\nhold Port^Port.berth(Q1)>Seal\nhold Seal^Port.berth(Q1)>Seal\nhold Port^Port.berth(Q1)>Port\nhold Port^Port.berth(Q2)>Port\nhold Port^Port.berth(Q1)>Seal\n";
    assert!(rt; read(book.as_bytes(), &mut house).is_ok());
    assert_eq!(rt; house.items().len(), 4);
    assert_eq!(rt; house.rules().len(), 5);
    let credentials: Vec<u8> = house
        .items()
        .iter()
        .map(|item| item.credential)
        .collect(rt.alloc())?;
    assert!(rt; credentials.as_slice() == [0, 0, 0, 3].as_slice());
    Ok(())
}
