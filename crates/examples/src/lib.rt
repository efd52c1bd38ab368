// The worked examples of document 01 that are proved: one table, in specs/Table.antt. There is no code to it.
#![tactic(auto)]
