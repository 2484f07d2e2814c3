// Theorems about the rules; they stand in specs/.
#![tactic(auto)]
