// The eight calls on a table: each is judged first, and then done.
ghost use Rattle.trunk.specs.Promises.{Gets, Shows, Swaps, Puts, Takes, Adds, Plants, Drops};

use crate::Table;
use bitmap::Bit;
use nodes::fault::Fault;
use runs::entry::{Entry, NodeRow};
use runs::store::RunStore;

impl<E: Entry, N: RunStore<Item = NodeRow>, V: RunStore<Item = E>> Table<N, V> {
    // The value at a path and bit.
    pub fn get(&self, path: &[u8], bit: Bit) -> Result<E, Fault>
        ensures { Gets N.Runs V.Runs self.now.trunk path.now bit.number result }
    {
        let spot = self.trunk.may_get(path, bit)?;
        Ok(self.trunk.value_at(spot, bit))
    }

    // A value at a clear bit.
    pub fn put(&mut self, path: &[u8], bit: Bit, value: E) -> Result<(), Fault>
        ensures { Puts N.Runs V.Runs self.old.trunk path.now bit.number value result self.new.trunk }
    {
        let spot = self.trunk.may_put(path, bit)?;
        self.trunk.put_at(spot, bit, value);
        Ok(())
    }

    // Another value for the one at a set bit, which is handed back.
    pub fn swap(&mut self, path: &[u8], bit: Bit, value: E) -> Result<E, Fault>
        ensures { Swaps N.Runs V.Runs self.old.trunk path.now bit.number value result self.new.trunk }
    {
        let spot = self.trunk.may_get(path, bit)?;
        Ok(self.trunk.swap_at(spot, bit, value))
    }

    // The value at a set bit is taken out.
    pub fn take(&mut self, path: &[u8], bit: Bit) -> Result<E, Fault>
        ensures { Takes N.Runs V.Runs self.old.trunk path.now bit.number result self.new.trunk }
    {
        let spot = self.trunk.may_take(path, bit)?;
        Ok(self.trunk.take_at(spot, bit))
    }

    // A bare child at a clear child bit.
    pub fn add(&mut self, path: &[u8], bit: Bit) -> Result<(), Fault>
        ensures { Adds N.Runs V.Runs self.old.trunk path.now bit.number result self.new.trunk }
    {
        let spot = self.trunk.may_add(path, bit)?;
        self.trunk.add_at(spot, bit);
        Ok(())
    }

    // A child at a clear child bit, with a value at its data bit 0.
    pub fn plant(&mut self, path: &[u8], bit: Bit, value: E) -> Result<(), Fault>
        ensures { Plants N.Runs V.Runs self.old.trunk path.now bit.number value result self.new.trunk }
    {
        let spot = self.trunk.may_plant(path, bit)?;
        self.trunk.plant_at(spot, bit, value);
        Ok(())
    }

    // A bare child goes.
    pub fn drop(&mut self, path: &[u8], bit: Bit) -> Result<(), Fault>
        ensures { Drops N.Runs V.Runs self.old.trunk path.now bit.number result self.new.trunk }
    {
        let spot = self.trunk.may_drop(path, bit)?;
        self.trunk.drop_at(spot, bit);
        Ok(())
    }

    // A node's four fields.
    pub fn show(&self, path: &[u8]) -> Result<NodeRow, Fault>
        ensures { Shows N.Runs V.Runs self.now.trunk path.now result }
    {
        let spot = self.trunk.node(path)?;
        Ok(NodeRow::from(spot.node))
    }
}
