#![tactic(auto)]

pub mod quota;
