use crate::Index;
use house::{House, read};

#[test]
fn the_chains_of_a_book(rt: HostRuntime) {
    let mut house = House::empty();
    let book =
        b"party Seal\nparty Port\nhold Port^Port.berth(Q1)>Seal\nrule Seal^Seal.open(Q1)>Port if Port^Port.berth(Q1)>Seal and Seal^Port.berth(Q1)>Seal\nrule Seal^Seal.open(Q1)>Port if Port^Port.berth(Q1)>Seal\n";
    assert!(rt; read(book, &mut house).is_ok());
    let index = Index::of(&house);
    assert_eq!(rt; index.uses.latest(0), Some(2));
    assert_eq!(rt; index.uses.value(2), Some(2));
    assert_eq!(rt; index.uses.earlier(2), Some(0));
    assert_eq!(rt; index.uses.value(0), Some(1));
    assert_eq!(rt; index.uses.earlier(0), None);
    assert_eq!(rt; index.uses.latest(1), None);
    assert_eq!(rt; index.heads.latest(1), Some(2));
    assert_eq!(rt; index.heads.earlier(2), Some(1));
    assert_eq!(rt; index.credentials.latest(0), Some(2));
    assert_eq!(rt; index.credentials.earlier(2), Some(0));
    assert_eq!(rt; index.uses.len(), 3);
}
