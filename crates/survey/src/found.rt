ghost use Rattle.std.specs.Prelude.{◌≡◌, ◌<◌, length, MatchBool};
ghost use Rattle.growth.specs.Entry.{about};
ghost use Rattle.growth.specs.SightOrder.{sight_order};
ghost use Rattle.survey.specs.Found.{junction_of, sight_of};
ghost use Rattle.survey.specs.Searching.{Leads};
ghost use Rattle.survey.specs.Asking.{AlongClause, TurnClause, AskClause};

use crate::ranks::junctions_compared;
use crate::records::{Junction, Record};
use crate::search::{Place, Side, Turn};
use label::Label;
use std::cmp::Ordering;

// How the junction, seen from the centre, compares with the record: by centre, then by junction. Written by hand, as the order of junctions is.
fn compared<L: Label>(centre: u32, junction: Junction<L>, against: Record<L>) -> Ordering
    ensures { result ≡ (sight_order L.Label.order).cmp (about centre (junction_of L.Label.stands junction)) (sight_of L.Label.stands against) }
{
    let by_junction = junctions_compared(junction, against.junction);
    centre.cmp(&against.centre).then(by_junction)
}

// Whether a link from the record counts: it leads to a later record in use.
fn leads(used: usize, at: usize, link: u32) -> bool
    ensures { MatchBool result (Leads used at link) (Leads used at link → ⊥) }
{
    at < link as usize && (link as usize) < used
}

// How the search goes on along a link.
fn along(used: usize, at: usize, link: u32, side: Side) -> Turn
    ensures { AlongClause used at link side result }
{
    if leads(used, at, link) {
        Turn::On(link as usize)
    } else {
        Turn::Stop(side)
    }
}

// How the search for the junction goes on from the record.
fn turn<L: Label>(records: &[Record<L>], centre: u32, junction: Junction<L>, at: usize) -> Turn
    requires { at < length records.now }
    ensures { TurnClause L.Label.order L.Label.stands (length records.now) records.now (about centre (junction_of L.Label.stands junction)) at result }
{
    let here = records[at];
    match compared(centre, junction, here) {
        Ordering::Equal => Turn::Here,
        Ordering::Less => along(records.len(), at, here.below, Side::Lesser),
        Ordering::Greater => along(records.len(), at, here.above, Side::Greater),
    }
}

// Searches the junction, seen from the centre, among the records in use: its record, or where it is missing.
pub(crate) fn ask<L: Label>(
    records: &[Record<L>],
    centre: u32,
    junction: Junction<L>,
) -> Result<usize, Place>
    requires { centre < length records.now }
    ensures { AskClause L.Label.order L.Label.stands (length records.now) records.now (about centre (junction_of L.Label.stands junction)) centre result }
{
    let mut at = centre as usize;
    // down a tree by links: there is no list of items to go over
    loop {
        match turn(records, centre, junction, at) {
            Turn::Here => return Ok(at),
            Turn::On(next) => at = next,
            Turn::Stop(side) => return Err(Place { under: at, side }),
        }
    }
}
