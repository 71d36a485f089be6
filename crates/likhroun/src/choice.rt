use label::{Label, Pair};
use lattice::{Screw, Translation};
use net::{Line, MOST_LINES};
use permutation::PackedNumber;
use report::{NotShown, ShownKind, show};
use sheet::SheetKind;
use std::alloc::Global;

// Reads the sheet as the kind that its first byte names, and says what is in it.
// Another first byte names no kind: reading it as translations tells why.
pub(crate) fn show_any(heap: Global, bytes: &[u8]) -> Result<String, NotShown> {
    // each arm names another type, which no closure could
    match bytes.first().map(|n| u32::from(*n)) {
        Some(Screw::KIND) => show_as::<Screw>(heap, bytes),
        Some(PackedNumber::KIND) => show_as::<PackedNumber>(heap, bytes),
        Some(<Pair<Translation, PackedNumber>>::KIND) => {
            show_as::<Pair<Translation, PackedNumber>>(heap, bytes)
        }
        _ => show_as::<Translation>(heap, bytes),
    }
}

// The same as the kind K, over a line list for the longest sheet.
fn show_as<K: ShownKind>(heap: Global, bytes: &[u8]) -> Result<String, NotShown> {
    let blank = Line {
        tail: 0,
        head: 0,
        label: K::identity(),
    };
    let mut list = vec![in heap; blank; MOST_LINES]?;
    show(heap, bytes, list.as_mut_slice())
}
