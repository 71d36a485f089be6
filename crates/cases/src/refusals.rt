use crate::blanks::blank;
use lattice::Translation;
use net::Line;
use permutation::PackedNumber;
use sheet::{SheetKind, read};
use std::process::Abort;
use std::test::Fail;

// A sheet, and the fault that reading it tells: number, byte place and layer, as they are told outside the kit.
#[derive(Clone, Copy)]
struct Case {
    bytes: &'static [u8],
    number: u8,
    place: usize,
    layer: u8,
}

const TRANSLATIONS: [Case; 17] = [
    Case {
        bytes: b"",
        number: 1,
        place: 0,
        layer: 1,
    },
    Case {
        bytes: b"\x01",
        number: 1,
        place: 1,
        layer: 1,
    },
    Case {
        bytes: b"\x80\x00",
        number: 2,
        place: 0,
        layer: 1,
    },
    Case {
        bytes: b"\x80\x80\x80\x01",
        number: 2,
        place: 0,
        layer: 1,
    },
    Case {
        bytes: b"\x02\x01\x00",
        number: 3,
        place: 0,
        layer: 1,
    },
    Case {
        bytes: b"\x01\x00\x00",
        number: 4,
        place: 1,
        layer: 1,
    },
    Case {
        bytes: b"\x01\x19\x00",
        number: 4,
        place: 1,
        layer: 1,
    },
    Case {
        bytes: b"\x01\x01\x61",
        number: 4,
        place: 2,
        layer: 1,
    },
    Case {
        bytes: b"\x01\x01\x00\xff",
        number: 6,
        place: 3,
        layer: 1,
    },
    // the cubic net without its last byte
    Case {
        bytes: b"\x01\x01\x03\0\0\x02\0\0\0\0\0\x02\0\0\0\0\0",
        number: 1,
        place: 17,
        layer: 1,
    },
    // -501 and 501 as label numbers
    Case {
        bytes: b"\x01\x01\x01\0\0\xe9\x07\0\0",
        number: 4,
        place: 5,
        layer: 2,
    },
    Case {
        bytes: b"\x01\x01\x01\0\0\0\xea\x07\0",
        number: 4,
        place: 6,
        layer: 2,
    },
    // no node 1; a loop with the identity
    Case {
        bytes: b"\x01\x01\x01\x01\0\x02\0\0",
        number: 7,
        place: 3,
        layer: 3,
    },
    Case {
        bytes: b"\x01\x01\x01\0\0\0\0\0",
        number: 10,
        place: 3,
        layer: 3,
    },
    // the same port again, forward and backward
    Case {
        bytes: b"\x01\x01\x02\0\0\x02\0\0\0\0\x02\0\0",
        number: 22,
        place: 8,
        layer: 3,
    },
    Case {
        bytes: b"\x01\x01\x02\0\0\x02\0\0\0\0\x01\0\0",
        number: 22,
        place: 8,
        layer: 3,
    },
    // a seventh loop
    Case {
        bytes: b"\x01\x01\x07\0\0\x02\0\0\0\0\x04\0\0\0\0\x06\0\0\0\0\x08\0\0\0\0\x0a\0\0\0\0\x0c\0\0\0\0\x0e\0\0",
        number: 23,
        place: 33,
        layer: 3,
    },
];

const PERMUTATIONS: [Case; 3] = [
    Case {
        bytes: b"\x03\x01\x01\0\0\x08",
        number: 4,
        place: 5,
        layer: 2,
    },
    Case {
        bytes: b"\x03\x01\x01\0\0\0\0\x02\x03\x04\x05\x06\x07",
        number: 5,
        place: 5,
        layer: 2,
    },
    Case {
        bytes: b"\x03\x01\x01\0\0\x01\0\x02\x03\x04\x05\x06\x07",
        number: 11,
        place: 3,
        layer: 3,
    },
];

// Handle and list are the test's own, and stand side by side.
fn told<K: SheetKind>(rt: &impl Abort, case: Case, list: &mut [Line<K>]) -> Result<(), Fail> {
    match read(case.bytes, list) {
        Ok(_) => Err(Fail::new("read")),
        Err(fault) => {
            assert_eq!(rt; fault.number(), case.number);
            assert_eq!(rt; fault.place(), case.place);
            assert_eq!(rt; fault.layer().number(), case.layer);
            Ok(())
        }
    }
}

fn all_told<K: SheetKind>(
    rt: &impl Abort,
    cases: &[Case],
    list: &mut [Line<K>],
) -> Result<(), Fail> {
    for case in cases {
        told(rt, *case, list)?;
    }
    Ok(())
}

// The lists stand in the tests: an array of a type parameter is not proved to be a slice.
#[test]
fn translations_refused(rt: HostRuntime) -> Result<(), Fail> {
    let mut list = [blank::<Translation>(); 96];
    all_told(&rt, &TRANSLATIONS, &mut list)
}

#[test]
fn permutations_refused(rt: HostRuntime) -> Result<(), Fail> {
    let mut list = [blank::<PackedNumber>(); 96];
    all_told(&rt, &PERMUTATIONS, &mut list)
}

// The square net has two lines: a list of one is full.
#[test]
fn list_too_short(rt: HostRuntime) -> Result<(), Fail> {
    let mut list = [blank::<Translation>(); 1];
    let square = Case {
        bytes: b"\x01\x01\x02\0\0\x02\0\0\0\0\0\x02\0",
        number: 20,
        place: 8,
        layer: 3,
    };
    told(&rt, square, &mut list)
}
