use crate::blanks::blank;
use label::{Label, Pair};
use lattice::{Screw, Translation};
use net::{Draft, Line};
use permutation::PackedNumber;
use sheet::{read, write};
use std::process::Abort;
use std::test::Fail;

// The cubic net, written out here too: a test over the program's own constant would not see it change.
const CUBIC: [u8; 18] = [1, 1, 3, 0, 0, 2, 0, 0, 0, 0, 0, 2, 0, 0, 0, 0, 0, 2];

// A byte that no sheet here has.
const UNTOUCHED: u8 = 0xaa;

fn untouched(out: &[u8]) -> bool {
    out.iter().all(|byte| *byte == UNTOUCHED)
}

// Writes the cubic net into an output that was untouched: all of it or nothing, and nothing past it.
fn cubic_into(
    rt: &impl Abort,
    draft: &Draft,
    list: &[Line<Translation>],
    out: &mut [u8],
) -> Result<(), Fail> {
    match write(draft, list, out) {
        Ok(length) => {
            assert!(rt; length == 18 && out.len() >= 18);
            assert!(rt; &out[0..18] == &CUBIC[0..18]);
            assert!(rt; untouched(&out[18..]));
            Ok(())
        }
        Err(refusal) => {
            assert!(rt; out.len() < 18);
            assert_eq!(rt; refusal.number(), 9);
            assert!(rt; untouched(out));
            Ok(())
        }
    }
}

#[test]
fn outputs_of_every_length(rt: HostRuntime) -> Result<(), Fail> {
    let mut list = [blank::<Translation>(); 96];
    let Ok(draft) = read(&CUBIC, &mut list) else {
        return Err(Fail::new("refused"));
    };
    // each length is tried: the numbers are the items
    for room in 0..20 {
        let mut out = [UNTOUCHED; 20];
        cubic_into(&rt, &draft, &list, &mut out[0..room])?;
    }
    Ok(())
}

// A label outside the written range is drawn, and refused when it is written; so is another list.
#[test]
fn refused_writing(rt: HostRuntime) -> Result<(), Fail> {
    let far = Translation { x: 501, y: 0, z: 0 };
    let mut list = [blank::<Translation>(); 2];
    let mut out = [UNTOUCHED; 40];
    let Ok(mut draft) = Draft::open(1, &list) else {
        return Err(Fail::new("refused"));
    };
    assert!(rt;
        draft
            .line(
                &mut list,
                Line {
                    tail: 0,
                    head: 0,
                    label: far,
                },
            )
            .is_ok()
    );
    let whole = write(&draft, &list, &mut out);
    assert_eq!(rt; whole.map_err(|refusal| refusal.number()), Err(31));
    let shorter = write(&draft, &list[0..1], &mut out);
    assert_eq!(rt; shorter.map_err(|refusal| refusal.number()), Err(12));
    assert!(rt; untouched(&out));
    Ok(())
}

// Stored, -500 is E7 07 and 500 is E8 07.
#[test]
fn ends_of_the_range(rt: HostRuntime) -> Result<(), Fail> {
    let mut list = [blank::<Translation>(); 1];
    let mut out = [UNTOUCHED; 10];
    let Ok(mut draft) = Draft::open(1, &list) else {
        return Err(Fail::new("refused"));
    };
    let ends = Translation {
        x: -500,
        y: 500,
        z: 0,
    };
    assert!(rt;
        draft
            .line(
                &mut list,
                Line {
                    tail: 0,
                    head: 0,
                    label: ends,
                },
            )
            .is_ok()
    );
    assert!(rt; write(&draft, &list, &mut out).is_ok());
    assert!(rt; out == [1, 1, 1, 0, 0, 0xe7, 0x07, 0xe8, 0x07, 0]);
    Ok(())
}

// A pair of a pair is a kind too.
#[test]
fn pair_of_pairs(rt: HostRuntime) {
    let moved = Translation { x: 1, y: 0, z: 0 };
    let turned = PackedNumber::identity();
    let raised = Screw { x: 0, y: 1, k: 1 };
    let label = Pair {
        first: Pair {
            first: moved,
            second: turned,
        },
        second: raised,
    };
    let twice = label.product(label);
    assert_eq!(rt; twice.first.first.x, 2);
    assert_eq!(rt; twice.second.x, -1);
    assert_eq!(rt;
        <Pair<Pair<Translation, PackedNumber>, Screw> as Label>::NUMBERS,
        14
    );
    assert!(rt;
        label
            .product(label.inverse())
            .compare(Label::identity())
            .is_eq()
    );
}
