// The received places that could be the bad one, and the one that is blamed: definitions and laws alone.
#![tactic(auto)]
