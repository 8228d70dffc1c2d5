// The walk over a table: every value with its data bit, a node's own by rising bit, and then its children by falling child bit, each with all below it.
#![tactic(auto)]

ghost use Rattle.walk.specs.Standing.{Ready};

pub mod begin;
pub mod close;
pub mod stack;
pub mod steps;

use crate::stack::Stack;
use nodes::record::NodeRecord;
use runs::entry::NodeRow;
use runs::store::RunStore;
use trunk::Trunk;

// A walk has the table's inside, so that no call can be made on a table whose walk has begun, and no walk writes to it.
#[derive(Drop)]
pub struct Walk<N: RunStore<Item = NodeRow>, V: RunStore> {
    trunk: Trunk<N, V>,
    // the nodes yet to be visited
    stack: Stack,
    // the node at hand, and the first of its data bits that is yet to be looked at
    node: NodeRecord,
    next: u32,
    // the stack has room for all that it may come to have, and what stands on it is there
    ghost ready: { ∥ Ready N.Runs V.Runs trunk stack node next ∥₁ },
}
