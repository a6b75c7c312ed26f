//! Two faults in one line: the smaller counts. Other pairs cannot be: a line with none of the forms has nothing else to
//! judge, a party of one letter is never enrolled, and a line that enrols a party has no items and asks for none.
use crate::readings::{behind_three, fourth, verdict};
use std::test::Fail;

const NINE: &str =
    "Port^Port.berth(Q1)>Seal and Port^Port.berth(Q2)>Seal and Port^Port.berth(Q3)>Seal and Port^Port.berth(Q4)>Seal and Port^Port.berth(Q5)>Seal and Port^Port.berth(Q6)>Seal and Port^Port.berth(Q7)>Seal and Port^Port.berth(Q8)>Seal and";

const ASK: &str = "ask Seal^Seal.open(Box7)>Port\n";

#[test]
fn no_last_byte_and_more(rt: HostRuntime) -> Result<(), Fail> {
    let heap = rt.alloc();
    fourth(&rt, "party S", 2)?;
    fourth(&rt, "party Seal", 2)?;
    fourth(&rt, "hold Ship^Seal.open(Box7)>Port", 2)?;
    fourth(
        &rt,
        "rule Seal^Seal.open(Box7)>Port if Port^Port.berth(Q1)>Quay",
        2,
    )?;
    let many = format!(in heap;
        "rule Seal^Seal.open(Box7)>Port if {NINE} Port^Port.berth(Q9)>Seal"
    )?;
    fourth(&rt, many.as_str(), 2)?;
    let second = format!(in heap; "{ASK}ask Seal^Seal.open(Box7)>Port")?;
    assert_eq!(rt; behind_three(heap, second.as_str())?, Err((2, 5)));
    Ok(())
}

#[test]
fn one_letter_and_more(rt: HostRuntime) -> Result<(), Fail> {
    let heap = rt.alloc();
    fourth(&rt, "hold Ship^Seal.open(x)>Port\n", 3)?;
    fourth(
        &rt,
        "rule Seal^Seal.open(x)>Port if Port^Port.berth(Q1)>Quay\n",
        3,
    )?;
    let many = format!(in heap;
        "rule Seal^Seal.open(x)>Port if {NINE} Port^Port.berth(Q9)>Seal\n"
    )?;
    fourth(&rt, many.as_str(), 3)?;
    let second = format!(in heap; "{ASK}ask Seal^Seal.open(x)>Port\n")?;
    assert_eq!(rt; behind_three(heap, second.as_str())?, Err((3, 5)));
    Ok(())
}

#[test]
fn enrolled_before_and_one_too_many(rt: HostRuntime) {
    assert_eq!(rt;
        verdict(
            "party Pa\nparty Pb\nparty Pc\nparty Pd\nparty Pe\nparty Pf\nparty Pg\nparty Ph\nparty Pi\nparty Pj\nparty Pk\nparty Pl\nparty Pm\nparty Pn\nparty Po\nparty Pp\nparty Pa\n",
        ),
        Err((4, 17))
    );
}

#[test]
fn not_enrolled_and_more(rt: HostRuntime) -> Result<(), Fail> {
    let heap = rt.alloc();
    fourth(
        &rt,
        "rule Seal^Seal.open(Box7)>Port if Port^Port.berth(Q1)>Ship\n",
        5,
    )?;
    let many = format!(in heap;
        "rule Seal^Seal.open(Box7)>Port if {NINE} Ship^Port.berth(Q9)>Seal\n"
    )?;
    fourth(&rt, many.as_str(), 5)?;
    let second = format!(in heap; "{ASK}ask Seal^Seal.open(Box7)>Ship\n")?;
    assert_eq!(rt; behind_three(heap, second.as_str())?, Err((5, 5)));
    Ok(())
}

#[test]
fn strange_and_one_too_many(rt: HostRuntime) -> Result<(), Fail> {
    let many = format!(in rt.alloc();
        "rule Seal^Seal.open(Box7)>Port if {NINE} Port^Port.berth(Q9)>Quay\n"
    )?;
    fourth(&rt, many.as_str(), 6)
}
