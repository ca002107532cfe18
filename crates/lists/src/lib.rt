// Lists, tests and buffers: definitions and laws alone.
#![tactic(auto)]
