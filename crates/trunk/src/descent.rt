// The way to a node: the path is read, and then followed from the root.
ghost use Rattle.std.specs.Prelude.{◌≡◌, Some, None, MatchOption};
ghost use Rattle.bitmap.specs.Ranks.{rank};
ghost use Rattle.table_model.specs.Tree.{Path};
ghost use Rattle.table_model.specs.Table.{child};
ghost use Rattle.table_model.specs.Refusals.{bad_path, no_node, no_place};
ghost use Rattle.table_model.specs.States.{slot};
ghost use Rattle.table_model.specs.Calls.{way, show_no};
ghost use Rattle.table_model.specs.Judged.{Reached};
ghost use Rattle.nodes.specs.Records.{row_of};
ghost use Rattle.trunk.specs.Meaning.{states, tree, Sound};
ghost use Rattle.trunk.specs.Promises.{Displayed};
ghost use Rattle.trunk.specs.Steps.{place_of, At, Judged};

use crate::Trunk;
use crate::spot::{Place, Spot};
use bitmap::{Bit, compute_slot, is_set};
use nodes::fault::Fault;
use nodes::path::read_path;
use nodes::record::NodeRecord;
use runs::entry::{Entry, NodeRow};
use runs::store::RunStore;

// Where the record of a node's child stands: in the node's run of children, at the rank of the child's bit.
fn child_place(parent: NodeRecord, bit: Bit) -> Place
    ensures { place_of (Some result) ≡ slot parent.children_index.number (rank parent.child_bitmap bit.number) }
{
    Place {
        run: parent.children_index,
        slot: compute_slot(parent.child_bitmap, bit),
    }
}

impl<E: Entry, N: RunStore<Item = NodeRow>, V: RunStore<Item = E>> Trunk<N, V> {
    // The child of a node at a bit, if there is one.
    pub fn child(&self, spot: Spot, bit: Bit) -> Option<Spot>
        requires sound { Sound N.Runs V.Runs self.now }
        requires node { (p : Path) × (way N.Runs.model V.Runs.model (states N.Runs V.Runs self.now) p ≡ Some (place_of spot.place, row_of spot.node)) }
        ensures { MatchOption result
            (child (N.Runs.model.live (N.Runs.state self.now.nodes)) (row_of spot.node) bit.number ≡ None)
            (At (λ pl x. (child (N.Runs.model.live (N.Runs.state self.now.nodes)) (row_of spot.node) bit.number ≡ Some x)
            × (pl ≡ slot spot.node.children_index.number (rank spot.node.child_bitmap bit.number)))) }
    {
        let node = spot.node;
        if !is_set(node.child_bitmap, bit) {
            return None;
        }
        let row = node.children().entry(&self.nodes, bit).unwrap();
        Some(Spot {
            place: Some(child_place(node, bit)),
            node: NodeRecord::try_from(row).unwrap(),
        })
    }

    // The descent, along a path that has been read. (The hints here and at `reach` and `may_get` are for speed: a short way costs less than a call.)
    #[inline(always)]
    fn follow(&self, path: &[u8]) -> Result<Spot, Fault>
        requires sound { Sound N.Runs V.Runs self.now }
        requires reads { bad_path path.now ≡ None }
        ensures { Judged (no_node (tree N.Runs V.Runs self.now) path.now)
            (λ pl x. way N.Runs.model V.Runs.model (states N.Runs V.Runs self.now) path.now ≡ Some (pl, x))
            result }
    {
        let mut spot = Spot {
            place: None,
            node: self.root,
        };
        // the place of a byte is what a refusal answers: how many child bits were followed
        for (i, b) in path.iter().enumerate() {
            let bit = Bit { number: *b as u32 };
            let Some(child) = self.child(spot, bit) else {
                return Err(Fault::NoNode(i as u32));
            };
            spot = child;
        }
        Ok(spot)
    }

    // The node at a path.
    pub fn node(&self, path: &[u8]) -> Result<Spot, Fault>
        requires { Sound N.Runs V.Runs self.now }
        ensures { Judged (show_no N.Runs.model V.Runs.model (states N.Runs V.Runs self.now) path.now)
            (λ pl x. (show_no N.Runs.model V.Runs.model (states N.Runs V.Runs self.now) path.now ≡ None)
            × Displayed N.Runs V.Runs (states N.Runs V.Runs self.now) path.now x)
            result }
    {
        read_path(path)?;
        self.follow(path)
    }

    // The node at a path, and a bit of it that is to be below the width.
    #[inline(always)]
    pub fn reach(&self, path: &[u8], bit: Bit, width: u32) -> Result<Spot, Fault>
        requires { Sound N.Runs V.Runs self.now }
        ensures { Judged (no_place (tree N.Runs V.Runs self.now) path.now bit.number width)
            (Reached N.Runs.model V.Runs.model (states N.Runs V.Runs self.now) path.now bit.number width)
            result }
    {
        read_path(path)?;
        if bit.number >= width {
            return Err(Fault::BadBit);
        }
        self.follow(path)
    }
}
