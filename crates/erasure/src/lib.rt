// Restoring lost places: definitions and laws alone.
#![tactic(auto)]
