use crate::blanks::blank;
use label::{LabelFault, Pair};
use lattice::{Screw, Translation};
use permutation::PackedNumber;
use report::{NotShown, ShownKind, hex_bytes, show};
use sheet::{Placed, SheetFault, WriteRefusal};
use std::alloc::Global;
use std::process::Abort;
use std::test::Fail;

#[test]
fn says_a_fault(rt: HostRuntime) -> Result<(), Fail> {
    let fault = SheetFault::Label(Placed {
        fault: LabelFault::OutOfRange,
        place: 7,
    });
    let text = fault.to_string(rt.alloc())?;
    assert!(rt; text.as_str() == "refused 4 at byte 7 in layer 2: a number outside its range");
    Ok(())
}

// The label's text is the one expected.
fn shows<K: ShownKind>(
    rt: &impl Abort,
    heap: Global,
    label: K,
    expected: &str,
) -> Result<(), Fail> {
    let text = label.to_string(heap)?;
    assert!(rt; text.as_str() == expected);
    Ok(())
}

#[test]
fn shows_labels(rt: HostRuntime) -> Result<(), Fail> {
    let heap = rt.alloc();
    let first = Translation { x: 1, y: 0, z: -1 };
    let second = PackedNumber(0o07654321);
    shows(&rt, heap, first, "(1, 0, -1)")?;
    shows(&rt, heap, Screw { x: 1, y: 0, k: 1 }, "(1, 0) climb 1")?;
    shows(&rt, heap, second, "[1 2 3 4 5 6 7 0]")?;
    shows(
        &rt,
        heap,
        Pair { first, second },
        "(1, 0, -1) [1 2 3 4 5 6 7 0]",
    )
}

// A refusal to write prints as one line.
#[test]
fn says_a_refusal_to_write(rt: HostRuntime) -> Result<(), Fail> {
    let text = WriteRefusal::OutputShort.to_string(rt.alloc())?;
    assert!(rt; text.as_str() == "refused 9: the output is shorter than the result");
    Ok(())
}

// The square net shows; without its last byte it is refused at the end of the bytes.
#[test]
fn shows_or_refuses(rt: HostRuntime) -> Result<(), Fail> {
    let square = b"\x01\x01\x02\0\0\x02\0\0\0\0\0\x02\0";
    let mut list = [blank::<Translation>(); 2];
    let text = show(rt.alloc(), square, &mut list)?;
    assert!(rt;
        text.as_str()
            .starts_with("sheet: 13 bytes, translations\nnodes: 1\n")
    );
    match show(rt.alloc(), &square[..12], &mut list) {
        Err(NotShown::Refused(fault)) => {
            assert_eq!(rt; fault.number(), 1);
            assert_eq!(rt; fault.place(), 12);
            Ok(())
        }
        _ => Err(Fail::new("no refusal")),
    }
}

#[test]
fn reads_hex(rt: HostRuntime) -> Result<(), Fail> {
    let heap = rt.alloc();
    let bytes = hex_bytes(heap, b"01 0A ff")?.ok_or("no bytes")?;
    assert!(rt; bytes.as_slice() == [1, 10, 255].as_slice());
    assert!(rt; hex_bytes(heap, b"01 0 A")?.is_none());
    Ok(())
}
