// Run stores: the numbers that they take, the kinds of entry, the capacities of groups, what every store promises,
// and the two ways in which entries move inside a lent slice.
#![tactic(auto)]

pub mod capacity;
pub mod entry;
pub mod fault;
pub mod index;
pub mod ledger;
pub mod lent;
pub mod shift;
pub mod store;
