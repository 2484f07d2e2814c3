// Document 02, point 3, as definitions; they stand in specs/.
#![tactic(auto)]
