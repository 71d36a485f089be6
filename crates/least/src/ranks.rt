ghost use Rattle.std.specs.Prelude.{◌≡◌};
ghost use Rattle.label.specs.Order.{Order};

use std::cmp::Ordering;

// Things with a place in a total order. Different things may have one rank.
pub trait Ranked: Copy {
    ghost Rank: { Type 0 };

    ghost order: { Order Rank };

    ghost rank: { Self → Rank };

    // How the ranks compare.
    fn compare_rank(self, other: Self) -> Ordering
        ensures { result ≡ order.cmp (rank self) (rank other) };
}
