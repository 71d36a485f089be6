ghost use Rattle.std.specs.Prelude.{ℕ};
ghost use Rattle.label.specs.NumberOrder.{number_order};

use crate::ranks::Ranked;
use crate::search::{least_above, nth_least};
use std::cmp::Ordering;

// A thing whose rank is a number.
#[derive(Clone, Copy, PartialEq, Eq, Debug)]
struct Height(u32);

impl Ranked for Height {
    ghost Rank = { ℕ };

    ghost order = { number_order };

    ghost rank = { λ h. h.0 };

    fn compare_rank(self, other: Height) -> Ordering {
        self.0.cmp(&other.0)
    }
}

// Two ranks stand twice.
const HEIGHTS: [Height; 5] = [Height(5), Height(2), Height(9), Height(2), Height(5)];

#[test]
fn least_above_a_floor(rt: HostRuntime) {
    assert_eq!(rt; least_above(&HEIGHTS, None), Some(Height(2)));
    assert_eq!(rt; least_above(&HEIGHTS, Some(Height(1))), Some(Height(2)));
    assert_eq!(rt; least_above(&HEIGHTS, Some(Height(2))), Some(Height(5)));
    assert_eq!(rt; least_above(&HEIGHTS, Some(Height(6))), Some(Height(9)));
    assert_eq!(rt; least_above(&HEIGHTS, Some(Height(9))), None);
}

#[test]
fn each_rank_once(rt: HostRuntime) {
    assert_eq!(rt; nth_least(&HEIGHTS, 0), Some(Height(2)));
    assert_eq!(rt; nth_least(&HEIGHTS, 1), Some(Height(5)));
    assert_eq!(rt; nth_least(&HEIGHTS, 2), Some(Height(9)));
    assert_eq!(rt; nth_least(&HEIGHTS, 3), None);
    assert_eq!(rt; nth_least(&HEIGHTS, usize::MAX), None);
}

#[test]
fn nothing_in_no_entries(rt: HostRuntime) {
    let none: [Height; 0] = [];
    assert_eq!(rt; least_above(&none, None), None);
    assert_eq!(rt; nth_least(&none, 0), None);
}
