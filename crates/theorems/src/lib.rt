// The demands, over the definitions of the calls: see specs/.
#![tactic(auto)]
