// How the balls of a net grow in a found list: definitions and lemmas.
#![tactic(auto)]
