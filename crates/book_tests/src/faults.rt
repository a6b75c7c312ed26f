//! Every fault, each beside the smallest change that passes.
use crate::readings::{fine, fourth, verdict};
use std::test::Fail;

#[test]
fn two_no_form(rt: HostRuntime) -> Result<(), Fail> {
    fourth(&rt, "party  Ship\n", 2)?;
    fine(&rt, "party Ship\n")
}

#[test]
fn three_one_letter(rt: HostRuntime) -> Result<(), Fail> {
    fourth(&rt, "party S\n", 3)?;
    fine(&rt, "party Sh\n")?;
    fourth(&rt, "hold Seal^Seal.open(x)>Port\n", 3)?;
    fine(&rt, "hold Seal^Seal.open(x1)>Port\n")?;
    fourth(&rt, "hold Seal^S.open(x1)>Port\n", 3)?;
    fourth(&rt, "hold Seal^Seal.o(x1)>Port\n", 3)?;
    fourth(&rt, "hold Seal^Seal.open(x1,x2,y,x3)>Port\n", 3)?;
    fourth(
        &rt,
        "rule Seal^Seal.open(x1)>Port if Port^Port.berth(Q1)>Seal and Port^Port.berth(q)>Seal\n",
        3,
    )
}

#[test]
fn four_enrolled_before(rt: HostRuntime) -> Result<(), Fail> {
    fourth(&rt, "party Seal\n", 4)?;
    fine(&rt, "party Sea1\n")?;
    fine(&rt, "party seal\n")
}

#[test]
fn five_not_enrolled(rt: HostRuntime) -> Result<(), Fail> {
    fourth(&rt, "hold Seal^Seal.open(Box7)>Ship\n", 5)?;
    fourth(&rt, "hold Ship^Seal.open(Box7)>Seal\n", 5)?;
    fourth(&rt, "ask Seal^Seal.open(Box7)>Ship\nparty Ship\n", 5)?;
    fine(&rt, "party Ship\nask Seal^Seal.open(Box7)>Ship\n")?;
    fine(&rt, "hold Seal^Ship.open(Box7)>Port\n")
}

#[test]
fn six_strange_to_the_owner(rt: HostRuntime) -> Result<(), Fail> {
    fourth(
        &rt,
        "rule Seal^Seal.open(Box7)>Port if Port^Port.berth(Q1)>Quay\n",
        6,
    )?;
    fine(
        &rt,
        "rule Seal^Seal.open(Box7)>Port if Port^Port.berth(Q1)>Seal\n",
    )?;
    fine(
        &rt,
        "rule Seal^Seal.open(Box7)>Port if Seal^Port.berth(Q1)>Quay\n",
    )
}

#[test]
fn seven_a_ninth_body_item(rt: HostRuntime) -> Result<(), Fail> {
    let eight =
        "rule Seal^Seal.open(Box7)>Port if Port^Port.berth(Q1)>Seal and Port^Port.berth(Q2)>Seal and Port^Port.berth(Q3)>Seal and Port^Port.berth(Q4)>Seal and Port^Port.berth(Q5)>Seal and Port^Port.berth(Q6)>Seal and Port^Port.berth(Q7)>Seal and Port^Port.berth(Q8)>Seal";
    let heap = rt.alloc();
    fine(&rt, format!(in heap; "{eight}\n")?.as_str())?;
    fourth(
        &rt,
        format!(in heap; "{eight} and Port^Port.berth(Q9)>Seal\n")?.as_str(),
        7,
    )?;
    fourth(
        &rt,
        format!(in heap; "{eight} and Port^Port.berth(Q1)>Seal\n")?.as_str(),
        7,
    )
}

#[test]
fn eight_a_second_ask(rt: HostRuntime) -> Result<(), Fail> {
    fourth(&rt, "ask Seal^Seal.open(Box7)>Port", 2)?;
    fine(&rt, "ask Seal^Seal.open(Box7)>Port\n")?;
    assert_eq!(rt;
        crate::readings::behind_three(
            rt.alloc(),
            "ask Seal^Seal.open(Box7)>Port\nask Seal^Seal.open(Box7)>Port\n",
        )?,
        Err((8, 5))
    );
    Ok(())
}

#[test]
fn the_first_faulty_line_decides(rt: HostRuntime) {
    assert_eq!(rt; verdict(""), Ok(()));
    assert_eq!(rt;
        verdict("party Seal\nparty Seal\nparty  Port\n"),
        Err((4, 2))
    );
    assert_eq!(rt;
        verdict("party Seal\nparty  Port\nparty Seal\n"),
        Err((2, 2))
    );
    assert_eq!(rt;
        verdict("hold Seal^Seal.open(Box7)>Seal\nparty Seal\n"),
        Err((5, 1))
    );
}
