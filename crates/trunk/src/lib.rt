// The inside of a table: two run stores with the root's record, and the steps that the calls on a table are made of. A call is judged first, by a
// step that changes nothing, and then done, by one that leans on what was judged: these have requirements that only a table's calls meet.
#![tactic(auto)]

pub mod descent;
pub mod judge;
pub mod spot;
pub mod steps;

use nodes::record::NodeRecord;

// A trunk agrees with its stores before a call and after it, not within one: so the steps ask for it by a clause, and a table's type has it.
#[derive(Drop)]
pub struct Trunk<N, V> {
    pub nodes: N,
    pub values: V,
    pub root: NodeRecord,
}
