// Tables as alist text: definitions and laws alone.
#![tactic(auto)]
