// What a table is made of below its stores: the node record and its two parts, the reading of a path, and what a table refuses.
#![tactic(auto)]

pub mod check;
pub mod fault;
pub mod part;
pub mod path;
pub mod record;
