// The steps of a walk, and its end.
ghost use Rattle.std.specs.Prelude.{◌≡◌, ◌<◌, [], length, true, false};
ghost use Rattle.table_model.specs.Tree.{walk};
ghost use Rattle.trunk.specs.Meaning.{tree, Sound};
ghost use Rattle.walk.specs.Coming.{hand};
ghost use Rattle.walk.specs.Standing.{unseen};

use crate::Walk;
use crate::stack::Stack;
use bitmap::{Bit, count};
use nodes::record::NodeRecord;
use runs::entry::{Entry, NodeRow};
use runs::store::RunStore;
use trunk::Trunk;

impl<E: Entry, N: RunStore<Item = NodeRow>, V: RunStore<Item = E>> Walk<N, V> {
    ghost use Rattle.walk.specs.Meaning.{to_come, Gives};

    // The root stands in no run: it is at hand first, and its children are the first to be pushed.
    pub(crate) fn over(trunk: Trunk<N, V>) -> Walk<N, V>
        requires { Sound N.Runs V.Runs trunk }
        ensures trunk { result.trunk ≡ trunk }
        ensures to_come { to_come N.Runs V.Runs result ≡ walk 25 (tree N.Runs V.Runs trunk) }
    {
        let node = trunk.root;
        let mut stack = Stack::new();
        stack.push_run(node.children_index, count(node.child_bitmap));
        Walk {
            trunk,
            stack,
            node,
            next: 0,
        }
    }

    // The next value of the node at hand.
    fn give(&mut self) -> Option<(Bit, E)>
        ensures trunk { self.new.trunk ≡ self.old.trunk }
        ensures stack { self.new.stack ≡ self.old.stack }
        ensures gives { Gives (hand N.Runs V.Runs self.old.trunk self.old.node self.old.next) result (hand N.Runs V.Runs self.new.trunk self.new.node self.new.next) }
    {
        let left = self.node.data_bitmap >> self.next;
        if left == 0 {
            return None;
        }
        let bit = Bit {
            number: self.next + left.trailing_zeros(),
        };
        let data = self.node.data();
        let value = data.entry(&self.trunk.values, bit).unwrap();
        self.next = bit.number + 1;
        Some((bit, value))
    }

    // Goes to the next node; false where every node was visited.
    fn advance(&mut self) -> bool
        requires { hand N.Runs V.Runs self.old.trunk self.old.node self.old.next ≡ [] }
        ensures trunk { self.new.trunk ≡ self.old.trunk }
        ensures to_come { to_come N.Runs V.Runs self.new ≡ to_come N.Runs V.Runs self.old }
        ensures ended { result ≡ false → to_come N.Runs V.Runs self.old ≡ [] }
        ensures visited { result ≡ true → length (unseen N.Runs V.Runs self.new.trunk self.new.stack) < length (unseen N.Runs V.Runs self.old.trunk self.old.stack) }
    {
        let Some(place) = self.stack.pop() else {
            return false;
        };
        let row = self.trunk.nodes.entry(place.run, place.slot).unwrap();
        let node = NodeRecord::try_from(row).unwrap();
        self.stack
            .push_run(node.children_index, count(node.child_bitmap));
        self.node = node;
        self.next = 0;
        true
    }

    // The next value with its data bit; none once every value is out.
    pub fn next(&mut self) -> Option<(Bit, E)>
        ensures trunk { self.new.trunk ≡ self.old.trunk }
        ensures gives { Gives (to_come N.Runs V.Runs self.old) result (to_come N.Runs V.Runs self.new) }
    {
        loop {
            if let Some(x) = self.give() {
                return Some(x);
            }
            if !self.advance() {
                return None;
            }
        }
    }

    // How many values were not handed out, and both stores.
    pub fn end(mut self) -> (u32, N, V)
        ensures left { result.0 ≡ length (to_come N.Runs V.Runs self) }
        ensures nodes { result.1 ≡ self.trunk.nodes }
        ensures values { result.2 ≡ self.trunk.values }
    {
        let mut left: u32 = 0;
        while self.next().is_some() {
            left += 1;
        }
        let Trunk {
            nodes,
            values,
            root: _,
        } = self.into_trunk();
        (left, nodes, values)
    }

    fn into_trunk(self) -> Trunk<N, V>
        ensures { result ≡ self.trunk }
    {
        let Walk {
            trunk,
            stack,
            node: _,
            next: _,
        } = self;
        drop(stack);
        trunk
    }
}
