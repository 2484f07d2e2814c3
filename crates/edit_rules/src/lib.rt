// Document 02, points 1, 6, 8 and 9, as definitions; they stand in specs/, a file for each.
#![tactic(auto)]
