// What the received packets decide: definitions and laws alone.
#![tactic(auto)]
