// No code: the definitions and laws by which the other crates read a table of 64 entries with a count as a list.
#![tactic(auto)]
