// The lowest check that fails, and the lowest byte of its sum that isn't zero: definitions and laws alone.
#![tactic(auto)]
