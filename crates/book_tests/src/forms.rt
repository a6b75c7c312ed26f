//! What has no form.
use crate::readings::{fine, fourth, verdict};
use std::test::Fail;

#[test]
fn spaces(rt: HostRuntime) -> Result<(), Fail> {
    fourth(&rt, "hold  Seal^Seal.open(Box7)>Port\n", 2)?;
    fourth(&rt, " hold Seal^Seal.open(Box7)>Port\n", 2)?;
    fourth(&rt, "hold Seal^Seal.open(Box7)>Port \n", 2)?;
    fourth(&rt, "hold Seal^Seal.open(Box7, Box8)>Port\n", 2)?;
    fourth(&rt, "hold Seal ^Seal.open(Box7)>Port\n", 2)?;
    fourth(&rt, "hold\tSeal^Seal.open(Box7)>Port\n", 2)?;
    fine(&rt, "hold Seal^Seal.open(Box7,Box8)>Port\n")
}

#[test]
fn line_ends(rt: HostRuntime) -> Result<(), Fail> {
    fourth(&rt, "hold Seal^Seal.open(Box7)>Port\r\n", 2)?;
    fourth(&rt, "\n", 2)?;
    fourth(&rt, "hold Seal^Seal.open(Box7)>Port", 2)?;
    fine(&rt, "hold Seal^Seal.open(Box7)>Port\n")?;
    assert_eq!(rt; verdict("party Seal"), Err((2, 1)));
    assert_eq!(rt; verdict("party Seal\n"), Ok(()));
    assert_eq!(rt; verdict("\n"), Err((2, 1)));
    Ok(())
}

#[test]
fn names_and_terms(rt: HostRuntime) -> Result<(), Fail> {
    fine(&rt, "party Abcdefghijklmnop\n")?;
    fourth(&rt, "party Abcdefghijklmnopq\n", 2)?;
    fourth(&rt, "party 1st\n", 2)?;
    fourth(&rt, "party First_mate\n", 2)?;
    fine(&rt, "hold Seal^Seal.open(t1,t2,t3,t4)>Port\n")?;
    fourth(&rt, "hold Seal^Seal.open(t1,t2,t3,t4,t5)>Port\n", 2)?;
    fourth(&rt, "hold Seal^Seal.open()>Port\n", 2)
}

#[test]
fn words(rt: HostRuntime) -> Result<(), Fail> {
    fourth(&rt, "Hold Seal^Seal.open(Box7)>Port\n", 2)?;
    fourth(&rt, "have Seal^Seal.open(Box7)>Port\n", 2)?;
    fourth(&rt, "rule Seal^Seal.open(Box7)>Port if\n", 2)?;
    fourth(&rt, "rule Seal^Seal.open(Box7)>Port\n", 2)?;
    fourth(
        &rt,
        "rule Seal^Seal.open(Box7)>Port if Port^Port.berth(Q1)>Seal and\n",
        2,
    )?;
    fourth(
        &rt,
        "hold Seal^Seal.open(Box7)>Port if Port^Port.berth(Q1)>Seal\n",
        2,
    )?;
    fine(
        &rt,
        "rule Seal^Seal.open(Box7)>Port if Port^Port.berth(Q1)>Seal\n",
    )
}
