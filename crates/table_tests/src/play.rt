// Scripts of calls on a table over any two stores, each call with the answer that is expected.
ghost use Rattle.std.specs.Prelude.{◌≡◌, ◌≤◌, length, IfSome};

use bitmap::{Bit, Slot};
use claims::Claims;
use flat::flat::Flat;
use nodes::fault::Fault;
use quota::quota::Quota;
use runs::entry::NodeRow;
use runs::index::{CellIndex, RunIndex};
use runs::store::RunStore;
use table::start::start;
use table::{NotStarted, Table};
use tiered::Tiered;

// A call with its path and bit, or a look at the store of values inside the table.
#[derive(Clone, Copy)]
pub enum Call<'a> {
    Get(&'a [u8], u32),
    Put(&'a [u8], u32, u32),
    Swap(&'a [u8], u32, u32),
    Take(&'a [u8], u32),
    Add(&'a [u8], u32),
    Plant(&'a [u8], u32, u32),
    Drop(&'a [u8], u32),
    Show(&'a [u8]),
    // the record at a slot of a node's run of values
    Record(&'a [u8], u32),
    // the claimed cells
    Claimed,
}

#[derive(Clone, Copy, Debug, PartialEq, Eq)]
pub enum Answer {
    Done,
    Number(u32),
    Node(NodeRow),
}

// A call, and what it is to answer.
pub type Line<'a> = (Call<'a>, Result<Answer, Fault>);

// The record at a slot, read from the store of values itself.
fn record<N: RunStore<Item = NodeRow>, V: RunStore<Item = u32>>(
    table: &Table<N, V>,
    path: &[u8],
    slot: u32,
) -> Result<u32, Fault> {
    let run = CellIndex::at(table.show(path)?.data_index);
    let slot = Slot { number: slot };
    table.values().entry(run, slot).map_err(Fault::Values)
}

fn carry_out<N: RunStore<Item = NodeRow>, V: RunStore<Item = u32> + Claims>(
    table: &mut Table<N, V>,
    call: Call<'_>,
) -> Result<Answer, Fault> {
    match call {
        Call::Get(path, number) => table.get(path, Bit { number }).map(Answer::Number),
        Call::Put(path, number, value) => table
            .put(path, Bit { number }, value)
            .map(|_| Answer::Done),
        Call::Swap(path, number, value) => table
            .swap(path, Bit { number }, value)
            .map(Answer::Number),
        Call::Take(path, number) => table.take(path, Bit { number }).map(Answer::Number),
        Call::Add(path, number) => table.add(path, Bit { number }).map(|_| Answer::Done),
        Call::Plant(path, number, value) => table
            .plant(path, Bit { number }, value)
            .map(|_| Answer::Done),
        Call::Drop(path, number) => table.drop(path, Bit { number }).map(|_| Answer::Done),
        Call::Show(path) => table.show(path).map(Answer::Node),
        Call::Record(path, slot) => record(table, path, slot).map(Answer::Number),
        Call::Claimed => Ok(Answer::Number(table.values().claimed_cells())),
    }
}

// How many lines of a script are answered as they say, up to the first that is not; 0 where no table starts.
pub fn play<N: RunStore<Item = NodeRow> + Drop, V: RunStore<Item = u32> + Claims + Drop>(
    nodes: N,
    values: V,
    script: &[Line<'_>],
) -> usize
    ensures { result ≤ length script.now }
{
    let Ok(mut table) = start(nodes, values) else {
        return 0;
    };
    for (i, (call, told)) in script.iter().enumerate() {
        if carry_out(&mut table, *call) != *told {
            return i;
        }
    }
    script.len()
}

// The same over two tiered stores of so many cells, of 32 at most.
pub fn play_tiered(nodes: usize, values: usize, script: &[Line<'_>]) -> usize
    ensures { result ≤ length script.now }
{
    let nodes = nodes.min(32);
    let values = values.min(32);
    let mut rows = [NodeRow::default(); 32];
    let mut row_ledger = [0; 32];
    let mut cells = [0; 32];
    let mut ledger = [0; 32];
    play(
        Tiered::new(&mut rows[..nodes], &mut row_ledger[..nodes]),
        Tiered::new(&mut cells[..values], &mut ledger[..values]),
        script,
    )
}

// The same under a limit on the values.
pub fn play_limited<N: RunStore<Item = NodeRow> + Drop, V: RunStore<Item = u32> + Claims + Drop>(
    nodes: N,
    values: V,
    limit: u32,
    script: &[Line<'_>],
) -> usize
    ensures { result ≤ length script.now }
{
    match Quota::start(values, limit) {
        Ok(limited) => play(nodes, limited, script),
        Err(_) => 0,
    }
}

// A start over values with a live run, and one over the stores that it hands back, once the run is taken out of them:
// the number of the refusal, what was taken out, and whether the second start is accepted.
pub fn start_twice<N: RunStore<Item = NodeRow> + Drop, V: RunStore<Item = u32> + Drop>(
    nodes: N,
    mut values: V,
    value: u32,
) -> Option<(u32, u32, bool)>
    ensures { IfSome result (λ x. x.0 ≡ 12) }
{
    let run = values.open(value).ok()?;
    let Err(back) = start(nodes, values) else {
        return None;
    };
    let number = back.number();
    let NotStarted { nodes, mut values } = back;
    let (taken, _) = values.remove(run, Slot { number: 0 }).ok()?;
    Some((number, taken, start(nodes, values).is_ok()))
}
