// Keeps the stream records of one node through a show, over a tiered store, and prints every call.
//
// Mappings arrive at bits in mixed order until all 31 stand, some are exchanged, and all are taken away again: the run goes through
// every size up and back. Then two stores that are too small refuse, and the lines show that nothing has changed.
#![tactic(auto)]

use bitmap::{Bit, compute_slot, is_set};
use mappings::{Node, clear_mapping, set_mapping};
use runs::entry::StreamRecord;
use runs::index::{CellIndex, RunIndex};
use runs::store::RunStore;
use std::io;
use tiered::Tiered;

// A store of records, played on and printed.
#[derive(Drop)]
struct Show<'a, 'b> {
    rt: &'a HostRuntime,
    store: Tiered<'b, StreamRecord>,
}

fn no_mapping() -> Node {
    Node {
        bitmap: 0,
        index: CellIndex::empty(),
    }
}

impl<'a, 'b> Show<'a, 'b> {
    // A bit with its record, if it has one.
    fn print_mapping(&self, node: Node, bit: Bit) -> io::Result<()> {
        if !is_set(node.bitmap, bit) {
            return Ok(());
        }
        match self.store.entry(node.index, compute_slot(node.bitmap, bit)) {
            Ok(stream) => print!(self.rt; " {}={stream}", bit.number),
            Err(fault) => println!(self.rt; "  refused {fault}"),
        }
    }

    // The run's index, the claimed cells, and the records in the order of their bits.
    fn print_node(&self, node: Node) -> io::Result<()> {
        let claimed = self.store.claimed();
        if node.index.is_empty() {
            print!(self.rt; "no run, claimed {claimed}:")?;
        } else {
            print!(self.rt; "index {}, claimed {claimed}:", node.index)?;
        }
        for bit in (0..32).map(|number| Bit { number }) {
            self.print_mapping(node, bit)?;
        }
        println!(self.rt; "")
    }

    // A mapping arrives at a bit: what was asked, and the node as it is then.
    fn arrive(&mut self, node: Node, bit: u32, stream: StreamRecord) -> io::Result<Node> {
        println!(self.rt; "set {bit} {stream}")?;
        let mut left = node;
        match set_mapping(&mut self.store, node, Bit { number: bit }, stream) {
            Ok(n) => left = n,
            Err(fault) => println!(self.rt; "  refused {fault}")?,
        }
        self.print_node(left)?;
        Ok(left)
    }

    // A mapping is taken away.
    fn leave(&mut self, node: Node, bit: u32) -> io::Result<Node> {
        println!(self.rt; "clear {bit}")?;
        let mut left = node;
        match clear_mapping(&mut self.store, node, Bit { number: bit }) {
            Ok((_, n)) => left = n,
            Err(fault) => println!(self.rt; "  refused {fault}")?,
        }
        self.print_node(left)?;
        Ok(left)
    }

    // All 31 bits get a mapping, every third is exchanged, and all are taken away in another order.
    fn play(&mut self) -> io::Result<()> {
        let mut node = no_mapping();
        for bit in (0..31u32).map(|k| k * 12 % 31) {
            node = self.arrive(node, bit, stream_at(bit, 0))?;
        }
        for bit in (0..30u32).step_by(3) {
            node = self.arrive(node, bit, stream_at(bit, 1))?;
        }
        for bit in (0..31u32).map(|k| k * 7 % 31) {
            node = self.leave(node, bit)?;
        }
        Ok(())
    }

    // Fourteen cells are one short of what five mappings take.
    fn play_short(&mut self) -> io::Result<()> {
        let mut node = no_mapping();
        for (k, bit) in (0..5u32).zip((0..25u32).step_by(5)) {
            node = self.arrive(node, bit, stream_at(k, 2))?;
        }
        Ok(())
    }

    // With three cells, a node with two mappings beside one with one can't lose either: there is no group of one for what would be left.
    fn play_beside(&mut self) -> io::Result<()> {
        let node = self.arrive(no_mapping(), 4, stream_at(4, 3))?;
        let node = self.arrive(node, 9, stream_at(9, 3))?;
        let beside = self.arrive(no_mapping(), 20, stream_at(20, 3))?;
        let node = self.leave(node, 4)?;
        let _ = self.leave(beside, 20)?;
        let _ = self.leave(node, 4)?;
        Ok(())
    }
}

// The stream of a bit at a turn of the show.
fn stream_at(bit: u32, turn: u32) -> StreamRecord {
    StreamRecord {
        output: (100 + bit % 32) as u16,
        queue: (bit % 8) as u8,
        rate: 4000u32.saturating_add(turn),
    }
}

fn main(rt: HostRuntime) -> io::Result<()> {
    println!(rt; "# 86 cells: every size once")?;
    let mut cells = [StreamRecord::default(); 86];
    let mut ledger = [0u64; 86];
    let store = Tiered::new(&mut cells, &mut ledger);
    Show { rt: &rt, store }.play()?;
    println!(rt; "# 14 cells")?;
    let mut cells = [StreamRecord::default(); 14];
    let mut ledger = [0u64; 14];
    let store = Tiered::new(&mut cells, &mut ledger);
    Show { rt: &rt, store }.play_short()?;
    println!(rt; "# 3 cells, two nodes")?;
    let mut cells = [StreamRecord::default(); 3];
    let mut ledger = [0u64; 3];
    let store = Tiered::new(&mut cells, &mut ledger);
    Show { rt: &rt, store }.play_beside()
}
