// What a call does once it has been judged. The path that it was judged by is known to the contracts alone.
ghost use Rattle.std.specs.Prelude.{◌≡◌, ◌<◌, None, Ok};
ghost use Rattle.bitmap.specs.Ranks.{rank, with_bit};
ghost use Rattle.table_model.specs.Tree.{Path};
ghost use Rattle.table_model.specs.Table.{bare_row, Passes};
ghost use Rattle.table_model.specs.States.{slot, written_nodes, written_root, child_run, put_at, add_at};
ghost use Rattle.table_model.specs.Judged.{no_growth, no_write, MayGet, MayPut, MayTake, MayAdd, MayPlant, MayDrop};
ghost use Rattle.nodes.specs.Records.{row_of};
ghost use Rattle.trunk.specs.Meaning.{states, Sound};
ghost use Rattle.trunk.specs.Promises.{Gets, Swaps, Puts, Takes, Adds, Plants, Drops};
ghost use Rattle.trunk.specs.Steps.{place_of, At};

use crate::Trunk;
use crate::spot::{Place, Spot};
use bitmap::{Bit, compute_slot};
use nodes::record::NodeRecord;
use runs::entry::{Entry, NodeRow};
use runs::index::{NodeIndex, RunIndex};
use runs::store::RunStore;

impl<E: Entry, N: RunStore<Item = NodeRow>, V: RunStore<Item = E>> Trunk<N, V> {
    // The record at a place is written anew.
    fn write(&mut self, place: Option<Place>, row: NodeRow)
        requires granted { no_write N.Runs.model (N.Runs.state self.old.nodes) (place_of place) ≡ None }
        requires passes { Passes (written_root (row_of self.old.root) (place_of place) row) }
        ensures nodes { N.Runs.state self.new.nodes ≡ written_nodes N.Runs.model (N.Runs.state self.old.nodes) (place_of place) row }
        ensures values { self.new.values ≡ self.old.values }
        ensures root { row_of self.new.root ≡ written_root (row_of self.old.root) (place_of place) row }
    {
        match place {
            None => self.root = NodeRecord::try_from(row).unwrap(),
            Some(at) => {
                let _ = self.nodes.exchange(at.run, at.slot, row).unwrap();
            }
        }
    }

    // A value at a bit of the record at a place, which the value store has granted.
    fn set_value(&mut self, spot: Spot, bit: Bit, value: E)
        requires growth { no_growth V.Runs.model (V.Runs.state self.old.values) spot.node.data_bitmap spot.node.data_index.number (rank spot.node.data_bitmap bit.number) ≡ None }
        requires write { no_write N.Runs.model (N.Runs.state self.old.nodes) (place_of spot.place) ≡ None }
        requires passes { Passes (put_at N.Runs.model V.Runs.model (states N.Runs V.Runs self.old) (place_of spot.place) (row_of spot.node) bit.number value).root }
        ensures { states N.Runs V.Runs self.new ≡ put_at N.Runs.model V.Runs.model (states N.Runs V.Runs self.old) (place_of spot.place) (row_of spot.node) bit.number value }
    {
        let node = spot.node;
        let data = node.data().grow(&mut self.values, bit, value).unwrap();
        self.write(spot.place, node.with_data(data));
    }

    // A bare child at a bit of the record at a place, which the node store has granted; the answer is the child's place.
    fn grow_child(&mut self, spot: Spot, bit: Bit) -> Spot
        requires growth { no_growth N.Runs.model (N.Runs.state self.old.nodes) spot.node.child_bitmap spot.node.children_index.number (rank spot.node.child_bitmap bit.number) ≡ None }
        requires write { no_write N.Runs.model (child_run N.Runs.model (N.Runs.state self.old.nodes) (row_of spot.node) bit.number).0 (place_of spot.place) ≡ None }
        requires passes { Passes (add_at N.Runs.model V.Runs.model (states N.Runs V.Runs self.old) (place_of spot.place) (row_of spot.node) bit.number).root }
        ensures values { self.new.values ≡ self.old.values }
        ensures after { states N.Runs V.Runs self.new ≡ add_at N.Runs.model V.Runs.model (states N.Runs V.Runs self.old) (place_of spot.place) (row_of spot.node) bit.number }
        ensures place { place_of result.place ≡ slot (child_run N.Runs.model (N.Runs.state self.old.nodes) (row_of spot.node) bit.number).1 (rank (with_bit spot.node.child_bitmap bit.number) bit.number) }
        ensures row { row_of result.node ≡ bare_row }
    {
        let node = spot.node;
        let bare = NodeRecord::bare();
        let children = node
            .children()
            .grow(&mut self.nodes, bit, NodeRow::from(bare))
            .unwrap();
        self.write(spot.place, node.with_children(children));
        Spot {
            place: Some(Place {
                run: NodeIndex::at(children.index),
                slot: compute_slot(children.bitmap, bit),
            }),
            node: bare,
        }
    }

    // The value at a set bit.
    pub fn value_at(&self, spot: Spot, bit: Bit) -> E
        requires sound { Sound N.Runs V.Runs self.now }
        requires may { (p : Path) × At (MayGet N.Runs.model V.Runs.model (states N.Runs V.Runs self.now) p bit.number) spot }
        ensures { (p : Path) → At (MayGet N.Runs.model V.Runs.model (states N.Runs V.Runs self.now) p bit.number) spot
            → Gets N.Runs V.Runs self.now p bit.number (Ok result) }
    {
        spot.node.data().entry(&self.values, bit).unwrap()
    }

    // Another value for the one at a set bit.
    pub fn swap_at(&mut self, spot: Spot, bit: Bit, value: E) -> E
        requires sound { Sound N.Runs V.Runs self.old }
        requires may { (p : Path) × At (MayGet N.Runs.model V.Runs.model (states N.Runs V.Runs self.old) p bit.number) spot }
        ensures { (p : Path) → At (MayGet N.Runs.model V.Runs.model (states N.Runs V.Runs self.old) p bit.number) spot
            → Swaps N.Runs V.Runs self.old p bit.number value (Ok result) self.new }
    {
        spot.node
            .data()
            .exchange(&mut self.values, bit, value)
            .unwrap()
    }

    // A value at a clear bit.
    pub fn put_at(&mut self, spot: Spot, bit: Bit, value: E)
        requires sound { Sound N.Runs V.Runs self.old }
        requires may { (p : Path) × At (MayPut N.Runs.model V.Runs.model (states N.Runs V.Runs self.old) p bit.number) spot }
        ensures { (p : Path) → At (MayPut N.Runs.model V.Runs.model (states N.Runs V.Runs self.old) p bit.number) spot
            → Puts N.Runs V.Runs self.old p bit.number value (Ok result) self.new }
    {
        self.set_value(spot, bit, value);
    }

    // The value at a set bit is taken out.
    pub fn take_at(&mut self, spot: Spot, bit: Bit) -> E
        requires sound { Sound N.Runs V.Runs self.old }
        requires may { (p : Path) × At (MayTake N.Runs.model V.Runs.model (states N.Runs V.Runs self.old) p bit.number) spot }
        ensures { (p : Path) → At (MayTake N.Runs.model V.Runs.model (states N.Runs V.Runs self.old) p bit.number) spot
            → Takes N.Runs V.Runs self.old p bit.number (Ok result) self.new }
    {
        let node = spot.node;
        let (value, data) = node.data().shrink(&mut self.values, bit).unwrap();
        self.write(spot.place, node.with_data(data));
        value
    }

    // A bare child at a clear bit.
    pub fn add_at(&mut self, spot: Spot, bit: Bit)
        requires sound { Sound N.Runs V.Runs self.old }
        requires may { (p : Path) × At (MayAdd N.Runs.model V.Runs.model (states N.Runs V.Runs self.old) p bit.number) spot }
        ensures { (p : Path) → At (MayAdd N.Runs.model V.Runs.model (states N.Runs V.Runs self.old) p bit.number) spot
            → Adds N.Runs V.Runs self.old p bit.number (Ok result) self.new }
    {
        let _ = self.grow_child(spot, bit);
    }

    // A child at a clear bit, with a value at its data bit 0.
    pub fn plant_at(&mut self, spot: Spot, bit: Bit, value: E)
        requires sound { Sound N.Runs V.Runs self.old }
        requires may { (p : Path) × At (MayPlant N.Runs.model V.Runs.model (states N.Runs V.Runs self.old) p bit.number) spot }
        ensures { (p : Path) → At (MayPlant N.Runs.model V.Runs.model (states N.Runs V.Runs self.old) p bit.number) spot
            → Plants N.Runs V.Runs self.old p bit.number value (Ok result) self.new }
    {
        let child = self.grow_child(spot, bit);
        self.set_value(child, Bit { number: 0 }, value);
    }

    // A bare child goes.
    pub fn drop_at(&mut self, spot: Spot, bit: Bit)
        requires sound { Sound N.Runs V.Runs self.old }
        requires may { (p : Path) × At (MayDrop N.Runs.model V.Runs.model (states N.Runs V.Runs self.old) p bit.number) spot }
        ensures { (p : Path) → At (MayDrop N.Runs.model V.Runs.model (states N.Runs V.Runs self.old) p bit.number) spot
            → Drops N.Runs V.Runs self.old p bit.number (Ok result) self.new }
    {
        let node = spot.node;
        let (_, children) = node.children().shrink(&mut self.nodes, bit).unwrap();
        self.write(spot.place, node.with_children(children));
    }
}
