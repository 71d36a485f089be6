ghost use Rattle.std.specs.Prelude.{MatchBool};
ghost use Rattle.least.specs.Bounds.{Lower};
ghost use Rattle.least.specs.Least.{LeastClause};
ghost use Rattle.least.specs.Nth.{NthClause};

use crate::ranks::Ranked;

// Whether the first ranks below the second.
fn ranks_below<T: Ranked>(a: T, b: T) -> bool
    ensures { MatchBool result (Lower T.Ranked.order T.Ranked.rank a b) (Lower T.Ranked.order T.Ranked.rank a b → ⊥) }
{
    a.compare_rank(b).is_lt()
}

// The least entry above the floor; with no floor, the least of all.
// A loop over the entries, for the library's `min_by` says of its answer only that it is one of them.
pub fn least_above<T: Ranked>(entries: &[T], floor: Option<T>) -> Option<T>
    ensures { LeastClause T.Ranked.order T.Ranked.rank entries.now floor result }
{
    let mut least = None;
    for entry in entries {
        let above = floor.is_none_or(|bound| ranks_below(bound, *entry));
        if above && least.is_none_or(|bound| ranks_below(*entry, bound)) {
            least = Some(*entry);
        }
    }
    least
}

// The entry above exactly i different ranks of the entries: the least for i = 0, and none where there are no more than i ranks.
#[tactic(auto, using(crate::proofs::Rounds::first, crate::proofs::Rounds::no_ranks, crate::proofs::Rounds::next))]
pub fn nth_least<T: Ranked>(entries: &[T], i: usize) -> Option<T>
    ensures { NthClause T.Ranked.order T.Ranked.rank entries.now i result }
{
    let mut least = least_above(entries, None)?;
    // one step, done i times: the number is no index
    for _ in 0..i {
        least = least_above(entries, Some(least))?;
    }
    Some(least)
}
