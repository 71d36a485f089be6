// The reference cases: the counted shells, bytes, and refusals.
// The function here computes nothing: its contract is a theorem.
#![tactic(auto)]

ghost use Rattle.reference_cases.specs.ReferenceLaws.{ReferenceLaws};

// How the coordination sequences of the square, the diamond, the fourfold screw and the closed mesh begin; how -500 and 500 are stored; and three refusals: of a number past its range, of one too long, and of a loop whose label is its own inverse.
pub fn reference_cases_hold()
    ensures { ReferenceLaws }
{}
