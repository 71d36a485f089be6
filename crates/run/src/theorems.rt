ghost use Rattle.std.specs.Prelude.{ℕ};
ghost use Rattle.run.specs.Findings.{FindingsHold};
ghost use Rattle.run.specs.Model.{SomeEnd, OneEnd};

use label::Label;

// Every survey that calls reach, whichever they are, tells the shells and distances of its net up to its radius, and grows if and only if the next balls fit.
// It computes nothing: its contract is the theorem.
#[tactic(auto, using(crate::proofs::Tellings::findings_hold))]
pub fn findings_hold<L: Label>()
    ensures { FindingsHold L.Label.group L.Label.order L.Label.stands }
{}

// Calls, over a list and a pool of given lengths, make one thing of a net: something, and never two things.
#[tactic(auto, using(crate::proofs::Ends::some_end, crate::proofs::Ends::one_end))]
pub fn runs_have_one_end<L: Label>()
    ensures some { (room space : ℕ) → SomeEnd L.Label.group L.Label.stands room space }
    ensures one { (room space : ℕ) → OneEnd L.Label.group L.Label.stands room space }
{}
