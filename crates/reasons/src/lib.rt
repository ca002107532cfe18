// The reason for one place after full repair: definitions and laws alone.
#![tactic(auto)]
