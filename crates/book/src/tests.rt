use crate::{Fault, ItemParts, Line, Part, Reader};

fn line_of(text: &[u8]) -> Result<Line, Fault> {
    Reader::new(text, 0).line()
}

fn has_form(text: &[u8]) -> bool {
    line_of(text).is_ok()
}

#[test]
fn the_four_forms(rt: HostRuntime) {
    let name = Part {
        place: 6,
        length: 4,
    };
    assert_eq!(rt; line_of(b"party Seal\n"), Ok(Line::Party(name)));
    let berth = ItemParts {
        whole: Part {
            place: 5,
            length: 30,
        },
        source: Part {
            place: 5,
            length: 4,
        },
        credential: Part {
            place: 10,
            length: 17,
        },
        destination: Part {
            place: 28,
            length: 7,
        },
        single: false,
    };
    assert_eq!(rt;
        line_of(b"hold Port^Port.berth(Quay4)>Shipper\n"),
        Ok(Line::Hold(berth))
    );
    let head = ItemParts {
        whole: Part {
            place: 5,
            length: 14,
        },
        source: Part {
            place: 5,
            length: 2,
        },
        credential: Part {
            place: 8,
            length: 8,
        },
        destination: Part {
            place: 17,
            length: 2,
        },
        single: true,
    };
    assert_eq!(rt;
        line_of(b"rule Aa^Bb.cc(x)>Dd if Bb^Bb.ee(ff)>Aa and Cc^Cc.gg(hh)>Aa\n"),
        Ok(Line::Rule {
            head,
            body: 23,
            count: 2,
        })
    );
}

#[test]
fn spaces_and_line_ends(rt: HostRuntime) {
    assert!(rt; has_form(b"party Seal\nparty"));
    assert!(rt; !has_form(b""));
    assert!(rt; !has_form(b"\n"));
    assert!(rt; !has_form(b"party Seal"));
    assert!(rt; !has_form(b" party Seal\n"));
    assert!(rt; !has_form(b"party  Seal\n"));
    assert!(rt; !has_form(b"party Seal \n"));
    assert!(rt; !has_form(b"party Seal\r\n"));
    assert!(rt; !has_form(b"Party Seal\n"));
    assert!(rt; !has_form(b"party\n"));
    assert!(rt; !has_form(b"party Seal Port\n"));
}

#[test]
fn names(rt: HostRuntime) {
    assert!(rt; has_form(b"party A\n"));
    assert!(rt; has_form(b"party z9\n"));
    assert!(rt; has_form(b"party Abcdefghijklmno1\n"));
    assert!(rt; !has_form(b"party Abcdefghijklmno12\n"));
    assert!(rt; !has_form(b"party 1a\n"));
    assert!(rt; !has_form(b"party a_b\n"));
    assert!(rt; !has_form(b"party a@\n"));
    assert!(rt; !has_form(b"party a[\n"));
    assert!(rt; !has_form(b"party a`\n"));
}

#[test]
fn items(rt: HostRuntime) {
    assert!(rt; has_form(b"ask Aa^Bb.cc(d1,d2,d3,d4)>Ee\n"));
    assert!(rt; !has_form(b"ask Aa^Bb.cc(d1,d2,d3,d4,d5)>Ee\n"));
    assert!(rt; !has_form(b"ask Aa^Bb.cc()>Ee\n"));
    assert!(rt; !has_form(b"ask Aa^Bb.cc(d1,)>Ee\n"));
    assert!(rt; !has_form(b"ask Aa^Bb.cc(d1>Ee\n"));
    assert!(rt; !has_form(b"ask Aa^Bb.cc d1)>Ee\n"));
    assert!(rt; !has_form(b"ask Aa.Bb^cc(d1)>Ee\n"));
    assert!(rt; !has_form(b"ask Aa^Bb.cc(d1)Ee\n"));
    assert!(rt; !has_form(b"ask ^Bb.cc(d1)>Ee\n"));
    assert!(rt; !has_form(b"ask Aa^Bb.cc(d1)>\n"));
}

#[test]
fn rules(rt: HostRuntime) {
    assert!(rt; has_form(b"rule Aa^Bb.cc(dd)>Ee if Ff^Bb.cc(dd)>Aa\n"));
    assert!(rt; !has_form(b"rule Aa^Bb.cc(dd)>Ee\n"));
    assert!(rt; !has_form(b"rule Aa^Bb.cc(dd)>Ee if\n"));
    assert!(rt; !has_form(b"rule Aa^Bb.cc(dd)>Ee if \n"));
    assert!(rt; !has_form(b"rule Aa^Bb.cc(dd)>Ee if Ff^Bb.cc(dd)>Aa and\n"));
    assert!(rt; !has_form(b"rule Aa^Bb.cc(dd)>Ee if Ff^Bb.cc(dd)>Aa and \n"));
    assert!(rt; !has_form(b"rule Aa^Bb.cc(dd)>Ee if Ff^Bb.cc(dd)>Aa Ff^Bb.cc(dd)>Aa\n"));
    assert!(rt; !has_form(b"rule Aa^Bb.cc(dd)>Ee and Ff^Bb.cc(dd)>Aa\n"));
    assert!(rt; !has_form(b"hold Aa^Bb.cc(dd)>Ee if Ff^Bb.cc(dd)>Aa\n"));
}

#[test]
fn line_after_line(rt: HostRuntime) {
    let mut reader = Reader::new(b"party Seal\nask Aa^Bb.cc(dd)>Ee\nhold Aa^", 0);
    assert!(rt; reader.line().is_ok());
    assert!(rt; reader.line().is_ok());
    assert!(rt; reader.line().is_err());
    assert!(rt; reader.line().is_err());
    assert!(rt; !reader.at_end());
    let mut items = Reader::new(b"Aa^Bb.cc(dd)>Ee and", 0);
    assert!(rt; items.item().is_some());
    assert!(rt; items.item().is_none());
    assert!(rt; !items.at_end());
}

#[test]
fn numbers_of_faults(rt: HostRuntime) {
    assert_eq!(rt; u8::from(Fault::TooLong), 1);
    assert_eq!(rt; line_of(b"?"), Err(Fault::NoForm));
    assert_eq!(rt; u8::from(Fault::NoForm), 2);
    assert_eq!(rt; u8::from(Fault::OneLetter), 3);
    assert_eq!(rt; u8::from(Fault::EnrolledBefore), 4);
    assert_eq!(rt; u8::from(Fault::NotEnrolled), 5);
    assert_eq!(rt; u8::from(Fault::Strange), 6);
    assert_eq!(rt; u8::from(Fault::TooMany), 7);
    assert_eq!(rt; u8::from(Fault::SecondAsk), 8);
    assert!(rt; Reader::new(b"ab", 2).at_end());
    assert!(rt; Reader::new(b"ab", 3).at_end());
    assert!(rt; !Reader::new(b"ab", 1).at_end());
}
