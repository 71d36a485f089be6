use label::Label;
use net::Line;

// The line that the lists of the tests start with.
pub(crate) fn blank<K: Label>() -> Line<K> {
    Line {
        tail: 0,
        head: 0,
        label: K::identity(),
    }
}
