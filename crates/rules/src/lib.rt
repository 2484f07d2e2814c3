// Document 01, and of document 02 siblings and holes, as definitions; they stand in specs/, a file for each section.
#![tactic(auto)]
