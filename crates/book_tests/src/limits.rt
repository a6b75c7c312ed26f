//! The last that passes and the first that does not.
use crate::readings::verdict;
use house::{House, read};
use std::alloc::Global;
use std::test::Fail;

const TWO: &str = "party Seal\nparty Port\n";

/// Two parties and a `hold` line for each of so many items.
fn many_items(heap: Global, count: u16) -> Result<String, Fail> {
    let mut book = format!(in heap; "{TWO}")?;
    for number in 0..count {
        let line = format!(in heap; "hold Port^Port.berth(Q{number})>Seal\n")?;
        book.push_str(line.as_str())?;
    }
    Ok(book)
}

#[test]
fn parties(rt: HostRuntime) -> Result<(), Fail> {
    let heap = rt.alloc();
    let mut book = String::new(heap);
    for number in 0u8..16 {
        let line = format!(in heap; "party Party{number}\n")?;
        book.push_str(line.as_str())?;
    }
    let mut house = House::empty();
    assert!(rt; read(book.as_bytes(), &mut house).is_ok());
    assert_eq!(rt; house.parties().len(), 16);
    book.push_str("party Party16\n")?;
    assert_eq!(rt; verdict(book.as_str()), Err((7, 17)));
    Ok(())
}

#[test]
fn items(rt: HostRuntime) -> Result<(), Fail> {
    let mut book = many_items(rt.alloc(), 256)?;
    let mut house = House::empty();
    assert!(rt; read(book.as_bytes(), &mut house).is_ok());
    assert_eq!(rt; house.items().len(), 256);
    book.push_str("ask Port^Port.berth(Q255)>Seal\n")?;
    assert_eq!(rt; verdict(book.as_str()), Ok(()));
    book.push_str("rule Port^Port.berth(Q255)>Seal if Port^Port.berth(Q256)>Seal\n")?;
    assert_eq!(rt; verdict(book.as_str()), Err((7, 260)));
    Ok(())
}

#[test]
fn the_last_item_by_ask(rt: HostRuntime) -> Result<(), Fail> {
    let mut book = many_items(rt.alloc(), 255)?;
    book.push_str("ask Port^Port.berth(Q255)>Seal\n")?;
    assert_eq!(rt; verdict(book.as_str()), Ok(()));
    book.push_str("hold Port^Port.berth(Q256)>Seal\n")?;
    assert_eq!(rt; verdict(book.as_str()), Err((7, 259)));
    Ok(())
}

#[test]
fn too_many_before_a_second_ask(rt: HostRuntime) -> Result<(), Fail> {
    let mut book = many_items(rt.alloc(), 256)?;
    book.push_str("ask Port^Port.berth(Q1)>Seal\nask Port^Port.berth(Q256)>Seal\n")?;
    assert_eq!(rt; verdict(book.as_str()), Err((7, 260)));
    Ok(())
}

#[test]
fn rules(rt: HostRuntime) -> Result<(), Fail> {
    let heap = rt.alloc();
    let lines = "hold Port^Port.berth(Q1)>Seal\n".repeat(heap, 512)?;
    let mut book = format!(in heap; "{TWO}{lines}")?;
    let mut house = House::empty();
    assert!(rt; read(book.as_bytes(), &mut house).is_ok());
    assert_eq!(rt; house.rules().len(), 512);
    assert_eq!(rt; house.items().len(), 1);
    book.push_str("hold Port^Port.berth(Q1)>Seal\n")?;
    assert_eq!(rt; verdict(book.as_str()), Err((7, 515)));
    Ok(())
}

#[test]
fn bytes(rt: HostRuntime) -> Result<(), Fail> {
    let heap = rt.alloc();
    let lines = "hold Port^Port.berthslot(Q123456789012345,Q12345678901234)>Seal\n".repeat(
        heap, 511,
    )?;
    let mut book = format!(in heap; "{TWO}{lines}")?;
    book.push_str("hold Port^Port.berth(Q1234567890123)>Seal\n")?;
    assert_eq!(rt; book.len(), 32768);
    assert_eq!(rt; verdict(book.as_str()), Ok(()));
    book.push_str("\n")?;
    assert_eq!(rt; verdict(book.as_str()), Err((1, 0)));
    let bad = format!(in heap; "?{book}")?;
    assert_eq!(rt; verdict(bad.as_str()), Err((1, 0)));
    Ok(())
}
