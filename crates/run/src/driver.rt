ghost use Rattle.run.specs.Played.{TurnClause, PlayClause};

use crate::state::{Call, State};
use label::Label;
use net::{Draft, Line};
use survey::{Record, Survey};

// Makes a call on a draft. A call that is for surveys is left out.
// The list and the pool are lent anew at each call, by a rule of the project, and so stand side by side here too.
// A call is a value that is matched, since the theorems range over lists of calls.
#[tactic(auto, using(crate::proofs::Turns::draft_other))]
fn turn_draft<L: Label>(
    draft: Draft,
    call: Call<L>,
    list: &mut [Line<L>],
    pool: &mut [Record<L>],
) -> State
    ensures { TurnClause L.Label.group L.Label.order L.Label.stands (State.Drafting draft) call list.old pool.old result list.new pool.new }
{
    let mut draft = draft;
    match call {
        Call::Line(line) => {
            let _ = draft.line(list, line);
        }
        Call::TakeBack => {
            let _ = draft.take_back(list);
        }
        Call::Seal => match Survey::seal(draft, list, pool) {
            Ok(survey) => return State::Surveying(survey),
            Err((_, refused)) => draft = refused,
        },
        _ => {}
    }
    State::Drafting(draft)
}

// Makes a call on a survey. A call that is for drafts is left out, and what a question is answered is not told.
#[tactic(auto, using(crate::proofs::Turns::survey_idle, crate::proofs::Turns::survey_other))]
fn turn_survey<L: Label>(
    survey: Survey,
    call: Call<L>,
    list: &mut [Line<L>],
    pool: &mut [Record<L>],
) -> State
    ensures { TurnClause L.Label.group L.Label.order L.Label.stands (State.Surveying survey) call list.old pool.old result list.new pool.new }
{
    let mut survey = survey;
    match call {
        Call::Grow => {
            let _ = survey.grow(list, pool);
        }
        Call::Count { node, shell } => {
            let _ = survey.count(list, pool, node, shell);
        }
        Call::Member {
            node,
            shell,
            before,
        } => {
            let _ = survey.member(list, pool, node, shell, before);
        }
        Call::Next { node, shell, floor } => {
            let _ = survey.next_member(list, pool, node, shell, floor);
        }
        Call::Distance { node, to } => {
            let _ = survey.distance(list, pool, node, to);
        }
        Call::Reopen => match survey.reopen(list, pool) {
            Ok(draft) => return State::Drafting(draft),
            Err((_, refused)) => survey = refused,
        },
        _ => {}
    }
    State::Surveying(survey)
}

// Makes a call on a net: a draft and a survey take different calls.
fn turn<L: Label>(
    state: State,
    call: Call<L>,
    list: &mut [Line<L>],
    pool: &mut [Record<L>],
) -> State
    ensures { TurnClause L.Label.group L.Label.order L.Label.stands state call list.old pool.old result list.new pool.new }
{
    match state {
        State::Drafting(draft) => turn_draft(draft, call, list, pool),
        State::Surveying(survey) => turn_survey(survey, call, list, pool),
    }
}

// Makes the calls one after another, and gives the state that they end in.
pub fn play<L: Label>(
    start: State,
    calls: &[Call<L>],
    list: &mut [Line<L>],
    pool: &mut [Record<L>],
) -> State
    ensures { PlayClause L.Label.group L.Label.order L.Label.stands start calls.now list.old pool.old result list.new pool.new }
{
    let mut state = start;
    for call in calls {
        state = turn(state, *call, list, pool);
    }
    state
}
