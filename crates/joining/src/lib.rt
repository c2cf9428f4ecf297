// No code: a send buffer whose chunks are joined where they would be more than 64 (docs/RULES.md, 4.10), beside one that never joins and whose table
// has no end: for the same accepted calls the two give the same, until an ack covers a joined chunk only in part.
#![tactic(auto)]
