ghost use Rattle.std.specs.Prelude.{◌≡◌, ◌<◌, ◌≤◌, length, MatchResult};
ghost use Rattle.net.specs.Verdict.{Settled};
ghost use Rattle.survey.specs.Clauses.{CountClause, MemberClause, NextClause, DistanceClause};
ghost use Rattle.survey.specs.Rules.{ShellBreaks, shell_rules};
ghost use Rattle.survey.specs.Spans.{Spanned};
ghost use Rattle.survey.specs.declared.refusals.SurveyRefusal.TheVariants.{NoSuchNode};

use crate::found::ask;
use crate::records::{Junction, Record};
use crate::refusals::SurveyRefusal;
use crate::surveys::Survey;
use label::Label;
use least::{least_above, nth_least};
use net::Line;
use std::ops::Range;

// The questions take the list and the pool anew each time, and a node and a shell by number, by a rule of the project: so these stand side by side.
impl Survey {
    // Refuses what is no node.
    fn check_node(&self, v: u32) -> Result<(), SurveyRefusal>
        ensures { MatchResult result (λ _. v < self.now.draft.nodes) (λ e. (e ≡ NoSuchNode) × (self.now.draft.nodes ≤ v)) }
    {
        if v < self.draft.nodes() {
            Ok(())
        } else {
            Err(SurveyRefusal::NoSuchNode)
        }
    }

    // Where in the pool the shell k of the node v lies.
    fn span<L: Label>(
        &self,
        list: &[Line<L>],
        pool: &[Record<L>],
        v: u32,
        k: u32,
    ) -> Result<Range<usize>, SurveyRefusal>
        ensures { Settled (ShellBreaks self.now (length list.now) (length pool.now) v k 0) shell_rules (λ p. Spanned self.now (length pool.now) v k p) (Unit {0}) result }
    {
        self.check_lent(list, pool)?;
        self.check_node(v)?;
        if k > self.radius {
            return Err(SurveyRefusal::BeyondRadius);
        }
        Ok(self.shell(v, k))
    }

    // How many junctions are in the shell k of the node v.
    pub fn count<L: Label>(
        &self,
        list: &[Line<L>],
        pool: &[Record<L>],
        v: u32,
        k: u32,
    ) -> Result<u32, SurveyRefusal>
        ensures { CountClause L.Label.group L.Label.order L.Label.stands self.now list.now pool.now v k result }
    {
        let span = self.span(list, pool, v, k)?;
        Ok(span.len() as u32)
    }

    // The junction of the shell k of the node v that has exactly i others of the shell before it, by node and then by label.
    pub fn member<L: Label>(
        &self,
        list: &[Line<L>],
        pool: &[Record<L>],
        v: u32,
        k: u32,
        i: u32,
    ) -> Result<Junction<L>, SurveyRefusal>
        ensures { MemberClause L.Label.group L.Label.order L.Label.stands self.now list.now pool.now v k i result }
    {
        let span = self.span(list, pool, v, k)?;
        let shell = &pool[span];
        if i as usize >= shell.len() {
            return Err(SurveyRefusal::NoSuchMember);
        }
        // own records differ, and then there is such a one; other memory may hold one junction twice, and the contract allows no refusal there
        let member = nth_least(shell, i as usize).unwrap_or(shell[0]);
        Ok(member.junction)
    }

    // The least junction of the shell k of the node v after the given one, if there is one.
    pub fn next_member<L: Label>(
        &self,
        list: &[Line<L>],
        pool: &[Record<L>],
        v: u32,
        k: u32,
        floor: Junction<L>,
    ) -> Result<Option<Junction<L>>, SurveyRefusal>
        ensures { NextClause L.Label.group L.Label.order L.Label.stands self.now list.now pool.now v k floor result }
    {
        let span = self.span(list, pool, v, k)?;
        let after = Record::unlinked(v, floor, k);
        let member = least_above(&pool[span], Some(after));
        Ok(member.map(|record| record.junction))
    }

    // How far the junction is from the home of the node v: none if it is farther off than the radius, or on no walk.
    // A `match` and no `ok().map(..)`: tried, and what is inferred of its closure leaves unproved whose distance it reads.
    pub fn distance<L: Label>(
        &self,
        list: &[Line<L>],
        pool: &[Record<L>],
        v: u32,
        to: Junction<L>,
    ) -> Result<Option<u32>, SurveyRefusal>
        ensures { DistanceClause L.Label.group L.Label.order L.Label.stands self.now list.now pool.now v to result }
    {
        self.check_lent(list, pool)?;
        self.check_node(v)?;
        self.check_node(to.node)?;
        match ask(&pool[..self.used], v, to) {
            Ok(at) => Ok(Some(pool[at].distance)),
            Err(_) => Ok(None),
        }
    }
}
