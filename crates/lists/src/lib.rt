// Definitions and laws on numbers and lists; they stand in specs/.
#![tactic(auto)]
