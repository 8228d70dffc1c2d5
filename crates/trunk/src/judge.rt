// Each call judged before anything is written, in the order of the refusals: the tree first, and then the stores.
ghost use Rattle.std.specs.Prelude.{◌≡◌, length, nat_le};
ghost use Rattle.table_model.specs.Calls.{get_no, put_no, take_no, add_no, plant_no, drop_no};
ghost use Rattle.table_model.specs.Judged.{MayGet, MayPut, MayTake, MayAdd, MayPlant, MayDrop};
ghost use Rattle.trunk.specs.Meaning.{states, Sound};
ghost use Rattle.trunk.specs.Steps.{Judged};

use crate::Trunk;
use crate::spot::Spot;
use bitmap::{Bit, is_set};
use nodes::fault::Fault;
use nodes::path::LONGEST_PATH;
use runs::entry::{Entry, NodeRow};
use runs::store::RunStore;

// Data bits are 0 to 30, child bits 0 to 31.
const DATA_BITS: u32 = 31;

const CHILD_BITS: u32 = 32;

// Whether no child can be below a path.
fn at_depth(path: &[u8]) -> bool
    ensures { result ≡ nat_le 25 (length path.now) }
{
    path.len() >= LONGEST_PATH
}

impl<E: Entry, N: RunStore<Item = NodeRow>, V: RunStore<Item = E>> Trunk<N, V> {
    // A set data bit.
    #[inline(always)]
    pub fn may_get(&self, path: &[u8], bit: Bit) -> Result<Spot, Fault>
        requires { Sound N.Runs V.Runs self.now }
        ensures { Judged (get_no N.Runs.model V.Runs.model (states N.Runs V.Runs self.now) path.now bit.number)
            (MayGet N.Runs.model V.Runs.model (states N.Runs V.Runs self.now) path.now bit.number)
            result }
    {
        let spot = self.reach(path, bit, DATA_BITS)?;
        if !is_set(spot.node.data_bitmap, bit) {
            return Err(Fault::Missing);
        }
        Ok(spot)
    }

    // A clear data bit, and room for its value.
    pub fn may_put(&self, path: &[u8], bit: Bit) -> Result<Spot, Fault>
        requires { Sound N.Runs V.Runs self.now }
        ensures { Judged (put_no N.Runs.model V.Runs.model (states N.Runs V.Runs self.now) path.now bit.number)
            (MayPut N.Runs.model V.Runs.model (states N.Runs V.Runs self.now) path.now bit.number)
            result }
    {
        // the way first, and then the bit
        let spot = self.reach(path, bit, DATA_BITS)?;
        if is_set(spot.node.data_bitmap, bit) {
            return Err(Fault::Taken);
        }
        let data = spot.node.data();
        data.may_grow(&self.values).map_err(Fault::Values)?;
        Ok(spot)
    }

    // A set data bit, whose value the store lets go.
    pub fn may_take(&self, path: &[u8], bit: Bit) -> Result<Spot, Fault>
        requires { Sound N.Runs V.Runs self.now }
        ensures { Judged (take_no N.Runs.model V.Runs.model (states N.Runs V.Runs self.now) path.now bit.number)
            (MayTake N.Runs.model V.Runs.model (states N.Runs V.Runs self.now) path.now bit.number)
            result }
    {
        let spot = self.may_get(path, bit)?;
        let data = spot.node.data();
        data.may_shrink(&self.values).map_err(Fault::Values)?;
        Ok(spot)
    }

    // A clear child bit, not too deep, and room for the child's record.
    pub fn may_add(&self, path: &[u8], bit: Bit) -> Result<Spot, Fault>
        requires { Sound N.Runs V.Runs self.now }
        ensures { Judged (add_no N.Runs.model V.Runs.model (states N.Runs V.Runs self.now) path.now bit.number)
            (MayAdd N.Runs.model V.Runs.model (states N.Runs V.Runs self.now) path.now bit.number)
            result }
    {
        let spot = self.reach(path, bit, CHILD_BITS)?;
        if at_depth(path) {
            return Err(Fault::TooDeep);
        }
        if is_set(spot.node.child_bitmap, bit) {
            return Err(Fault::Taken);
        }
        let children = spot.node.children();
        children.may_grow(&self.nodes).map_err(Fault::Nodes)?;
        Ok(spot)
    }

    // As for a bare child, and room for its first value.
    pub fn may_plant(&self, path: &[u8], bit: Bit) -> Result<Spot, Fault>
        requires { Sound N.Runs V.Runs self.now }
        ensures { Judged (plant_no N.Runs.model V.Runs.model (states N.Runs V.Runs self.now) path.now bit.number)
            (MayPlant N.Runs.model V.Runs.model (states N.Runs V.Runs self.now) path.now bit.number)
            result }
    {
        let spot = self.may_add(path, bit)?;
        self.values.grow(0).map_err(Fault::Values)?;
        Ok(spot)
    }

    // A bare child, whose record the store lets go.
    pub fn may_drop(&self, path: &[u8], bit: Bit) -> Result<Spot, Fault>
        requires { Sound N.Runs V.Runs self.now }
        ensures { Judged (drop_no N.Runs.model V.Runs.model (states N.Runs V.Runs self.now) path.now bit.number)
            (MayDrop N.Runs.model V.Runs.model (states N.Runs V.Runs self.now) path.now bit.number)
            result }
    {
        let spot = self.reach(path, bit, CHILD_BITS)?;
        let child = self.child(spot, bit).ok_or(Fault::Missing)?;
        if child.node.data_bitmap != 0 || child.node.child_bitmap != 0 {
            return Err(Fault::NotBare);
        }
        let children = spot.node.children();
        children.may_shrink(&self.nodes).map_err(Fault::Nodes)?;
        Ok(spot)
    }
}
