// The flat store: runs in groups of the longest run's size, over lent cells and a lent ledger. No run moves.
#![tactic(auto)]

pub mod flat;
