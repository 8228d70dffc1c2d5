// Whole histories: a table made of two stores, a list of calls on it, and at last perhaps a walk.
#![tactic(auto)]

pub mod call;
pub mod fresh;
pub mod history;
pub mod last;
pub mod left;
pub mod play;
pub mod step;
#[cfg(test)]
mod tests;
pub mod watch;
