// The symmetric group on the points 0 to 7 and its order: theory only.
#![tactic(auto)]
