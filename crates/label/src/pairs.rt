ghost use Rattle.std.specs.Prelude.{◌≡◌};
ghost use Rattle.label.specs.Group.{pair_group};
ghost use Rattle.label.specs.Order.{pair_order};
ghost use Rattle.label.specs.PairCount.{few_enough, pair_count};
ghost use Rattle.label.specs.PairForm.{pair_form, pair_counted};
ghost use Rattle.label.specs.PairReading.{joined_reading};
ghost use Rattle.label.specs.PairText.{both_texts};

use crate::kind::Label;
use crate::refusals::{LabelFault, NoWrittenForm};
use crate::written::Slot;
use std::cmp::Ordering;
use std::fmt;

// A label of one kind beside a label of another. Every function works part by part,
// the order by the first part first.
#[derive(Clone, Copy)]
pub struct Pair<A, B> {
    pub first: A,
    pub second: B,
}

// The most numbers that a written form has.
pub const MOST_NUMBERS: usize = 4095;

// Whether two parts with so many numbers have few enough together.
const fn few_together(a: usize, b: usize) -> bool
    ensures { result ≡ few_enough a b }
{
    a <= MOST_NUMBERS && b <= MOST_NUMBERS - a
}

// How many numbers a pair has whose parts have so many: 0 where those are too many together.
// A number and no Option, for the constant NUMBERS of a kind is a number, and a constant cannot refuse.
const fn pair_numbers(a: usize, b: usize) -> usize
    ensures { result ≡ pair_count a b }
{
    if few_together(a, b) { a + b } else { 0 }
}

// The pair of two labels that were read. A number out of range in either part is told first.
fn joined<A: Copy, B: Copy>(
    first: Result<A, LabelFault>,
    second: Result<B, LabelFault>,
) -> Result<Pair<A, B>, LabelFault>
    ensures { result ≡ joined_reading first second }
{
    match (first, second) {
        (Ok(first), Ok(second)) => Ok(Pair { first, second }),
        (Err(LabelFault::OutOfRange), _) | (_, Err(LabelFault::OutOfRange)) => {
            Err(LabelFault::OutOfRange)
        }
        _ => Err(LabelFault::NoPermutation),
    }
}

impl<A: Label, B: Label> Label for Pair<A, B> {
    const NUMBERS: usize = pair_numbers(A::NUMBERS, B::NUMBERS);

    ghost NUMBERS = { pair_count A.Label.NUMBERS B.Label.NUMBERS };

    ghost Meaning = { A.Label.Meaning × B.Label.Meaning };

    ghost group = { pair_group A.Label.group B.Label.group };

    ghost order = { pair_order A.Label.order B.Label.order };

    ghost form = { pair_form A.Label.form B.Label.form };

    ghost stands = { λ p. (A.Label.stands p.first, B.Label.stands p.second) };

    ghost counted = { pair_counted A.Label.form B.Label.form A.Label.counted B.Label.counted };

    fn identity() -> Self {
        Pair {
            first: A::identity(),
            second: B::identity(),
        }
    }

    fn product(self, other: Self) -> Self {
        Pair {
            first: self.first.product(other.first),
            second: self.second.product(other.second),
        }
    }

    fn inverse(self) -> Self {
        Pair {
            first: self.first.inverse(),
            second: self.second.inverse(),
        }
    }

    fn compare(self, other: Self) -> Ordering {
        let by_first = self.first.compare(other.first);
        by_first.then_with(|| self.second.compare(other.second))
    }

    fn slot(at: usize) -> Option<Slot> {
        if at >= Self::NUMBERS {
            None
        } else if at < A::NUMBERS {
            A::slot(at)
        } else {
            B::slot(at - A::NUMBERS)
        }
    }

    fn read(numbers: &[i32]) -> Result<Self, LabelFault> {
        if !few_together(A::NUMBERS, B::NUMBERS) || numbers.len() != Self::NUMBERS {
            return Err(LabelFault::OutOfRange);
        }
        let (first, second) = numbers.split_at(A::NUMBERS);
        joined(A::read(first), B::read(second))
    }

    // The part that the place is not in is asked too: it may have no written form.
    fn written(self, at: usize) -> Result<Option<i32>, NoWrittenForm> {
        if !few_together(A::NUMBERS, B::NUMBERS) {
            return Err(NoWrittenForm);
        }
        let first = self.first.written(at)?;
        let second = self.second.written(at.saturating_sub(A::NUMBERS))?;
        Ok(if at < A::NUMBERS { first } else { second })
    }
}

// The first part's text, a blank, and the second's.
impl<A: fmt::Display, B: fmt::Display> fmt::Display for Pair<A, B> {
    ghost output = { λ p. both_texts (A.Display.output p.first) (B.Display.output p.second) };

    fn fmt<W: fmt::Write>(&self, f: &mut fmt::Formatter<W>) -> fmt::Result {
        let Pair { first, second } = self;
        write!(f, "{first} {second}")
    }
}
