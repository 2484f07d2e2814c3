// Theorems about runs of the calls, from end to end; they stand in proofs/, over the records of specs/.
#![tactic(auto)]
