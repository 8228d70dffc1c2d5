// Computes eleven worked figures and prints a line for each: its number, and ok or bad.
#![tactic(auto)]

use bitmap::{Bit, compute_slot};
use history::call::{Answer, Call};
use history::fresh::{Lent, WatchTiered, history_over_fresh};
use history::left::Last;
use history_model::figures_stand;
use nodes::fault::Fault;
use runs::capacity::run_size;
use runs::entry::{Entry, NodeRow};
use runs::fault::StoreFault;
use std::alloc::Global;
use std::io;
use table::Table;
use tiered::Tiered;

// ---- ranks, and the sizes of groups

fn rank(bitmap: u32, number: u32) -> u32 {
    compute_slot(bitmap, Bit { number }).number
}

fn rank_of_five() -> bool {
    rank(38, 5) == 2
}

fn ranks_in_all_ones() -> bool {
    rank(u32::MAX, 31) == 31 && rank(u32::MAX, 0) == 0
}

fn size<E: Entry>(n: u32) -> u32 {
    run_size(E::LONGEST, n)
}

fn sizes() -> bool {
    size::<u32>(16) == 16
        && size::<u32>(17) == 24
        && size::<u32>(25) == 31
        && size::<NodeRow>(25) == 32
}

// ---- histories of plain numbers over two tiered stores of a few cells

// Looks at the claimed cells of the value store after each call.
#[derive(Clone, Copy)]
struct Claimed {
    cells: u32,
}

impl WatchTiered<u32> for Claimed {
    fn see(
        &mut self,
        table: &Table<Tiered<'_, NodeRow>, Tiered<'_, u32>>,
        _: &Result<Answer<u32>, Fault>,
    ) {
        self.cells = table.values().claimed();
    }
}

// What is told of a history: the answers, what the nexts of a walk give, and how many cells of the value store are claimed after the calls.
#[derive(Drop)]
struct Told {
    answers: Vec<Result<Answer<u32>, Fault>>,
    nexts: Vec<Option<(Bit, u32)>>,
    claimed: u32,
}

// The calls over stores of so many cells, of 32 at most, and then a walk of so many nexts; none where memory is wanting.
fn play(
    alloc: Global,
    [nodes, values]: [usize; 2],
    calls: &[Call<'_, u32>],
    nexts: usize,
) -> Option<Told> {
    let mut rows = [NodeRow::default(); 32];
    let mut row_ledger = [0u64; 32];
    let mut cells = [0u32; 32];
    let mut ledger = [0u64; 32];
    let nodes = Lent {
        cells: &mut rows[..nodes.min(32)],
        ledger: &mut row_ledger[..nodes.min(32)],
    };
    let values = Lent {
        cells: &mut cells[..values.min(32)],
        ledger: &mut ledger[..values.min(32)],
    };
    let mut watch = Claimed { cells: 0 };
    let last = Last::End(nexts);
    match history_over_fresh(alloc, nodes, values, calls, last, &mut watch) {
        Ok(played) => Some(Told {
            answers: played.answers,
            nexts: played.nexts,
            claimed: watch.cells,
        }),
        Err(_) => None,
    }
}

// Whether the calls are answered so, and so many cells are claimed for values.
fn answers_so(
    alloc: Global,
    cells: [usize; 2],
    calls: &[Call<'_, u32>],
    answers: &[Result<Answer<u32>, Fault>],
    claimed: u32,
) -> bool {
    match play(alloc, cells, calls, 0) {
        Some(told) => told.answers.as_slice() == answers && told.claimed == claimed,
        None => false,
    }
}

// Whether a walk after the calls gives these values with their data bits, and then none.
fn walks_so(alloc: Global, calls: &[Call<'_, u32>], values: &[(u32, u32)]) -> bool {
    let Some(told) = play(alloc, [32, 32], calls, values.len().saturating_add(1)) else {
        return false;
    };
    let given = told
        .nexts
        .iter()
        .map(|next| next.map(|(bit, value)| (bit.number, value)));
    let wanted = values.iter().map(|pair| Some(*pair)).chain([None]);
    given.eq(wanted)
}

// ---- tables

const DONE: Result<Answer<u32>, Fault> = Ok(Answer::Done);

const BAD_BIT: Result<Answer<u32>, Fault> = Err(Fault::BadBit);

const NO_VALUE_GROUP: Result<Answer<u32>, Fault> = Err(Fault::Values(StoreFault::NoGroup(0)));

const NO_NODE_GROUP: Result<Answer<u32>, Fault> = Err(Fault::Nodes(StoreFault::NoGroup(0)));

fn put(number: u32, value: u32) -> Call<'static, u32> {
    Call::Put(&[], Bit { number }, value)
}

fn take(number: u32) -> Call<'static, u32> {
    Call::Take(&[], Bit { number })
}

fn add(number: u32) -> Call<'static, u32> {
    Call::Add(&[], Bit { number })
}

fn plant(number: u32, value: u32) -> Call<'static, u32> {
    Call::Plant(&[], Bit { number }, value)
}

const SHOW: Call<'static, u32> = Call::Show(&[]);

// The answer of a show of a node with values and no child.
fn holding(data_bitmap: u32, data_index: u32) -> Result<Answer<u32>, Fault> {
    Ok(Answer::Node(NodeRow {
        data_bitmap,
        data_index,
        ..NodeRow::default()
    }))
}

// a, b, c at bits 1, 4, 9 and d put at 6.
fn values_stand_by_bit(alloc: Global) -> bool {
    let calls = [put(1, 10), put(4, 20), put(9, 30), put(6, 40)];
    walks_so(alloc, &calls, &[(1, 10), (4, 20), (6, 40), (9, 30)])
}

// Each put moves the root's values to a group that is large enough.
fn five_puts_move_the_run(alloc: Global) -> bool {
    let calls = [
        put(0, 10),
        SHOW,
        put(1, 11),
        SHOW,
        put(2, 12),
        SHOW,
        put(3, 13),
        SHOW,
        put(4, 14),
        SHOW,
    ];
    let answers = [
        DONE,
        holding(0b1, 0),
        DONE,
        holding(0b11, 1),
        DONE,
        holding(0b111, 3),
        DONE,
        holding(0b1111, 3),
        DONE,
        holding(0b1_1111, 7),
    ];
    answers_so(alloc, [0, 32], &calls, &answers, 15)
}

fn fourteen_cells_are_too_few(alloc: Global) -> bool {
    let calls = [put(0, 10), put(1, 11), put(2, 12), put(3, 13), put(4, 14)];
    let answers = [DONE, DONE, DONE, DONE, NO_VALUE_GROUP];
    answers_so(alloc, [0, 14], &calls, &answers, 7)
}

fn a_take_moves_the_run_back(alloc: Global) -> bool {
    let calls = [
        put(0, 10),
        put(1, 11),
        put(2, 12),
        put(3, 13),
        put(4, 14),
        take(0),
        SHOW,
    ];
    let taken = Ok(Answer::Value(10));
    let answers = [DONE, DONE, DONE, DONE, DONE, taken, holding(0b1_1110, 3)];
    answers_so(alloc, [0, 15], &calls, &answers, 15)
}

// Two values at the root and one in a child: the taken run of two goes to a group of one cell.
fn a_take_wants_a_cell_more(alloc: Global) -> bool {
    let calls = [put(0, 65), put(2, 66), plant(3, 67), take(0)];
    let refused = [DONE, DONE, DONE, NO_VALUE_GROUP];
    let accepted = [DONE, DONE, DONE, Ok(Answer::Value(65))];
    answers_so(alloc, [1, 3], &calls, &refused, 3)
        && answers_so(alloc, [1, 4], &calls, &accepted, 4)
}

// A, B at the root's bits 0, 2; child 3 holds C, child 7 holds D.
fn the_walk_goes_by_falling_child(alloc: Global) -> bool {
    let calls = [put(0, 65), put(2, 66), plant(3, 67), plant(7, 68)];
    walks_so(alloc, &calls, &[(0, 65), (2, 66), (0, 68), (0, 67)])
}

fn bits_are_checked(alloc: Global) -> bool {
    let calls = [put(30, 1), put(31, 1), add(31), add(32)];
    answers_so(alloc, [1, 1], &calls, &[DONE, BAD_BIT, DONE, BAD_BIT], 1)
}

fn no_cells_refuse_the_first_opening(alloc: Global) -> bool {
    let calls = [put(0, 10), add(0)];
    answers_so(alloc, [0, 0], &calls, &[NO_VALUE_GROUP, NO_NODE_GROUP], 0)
}

fn main(rt: HostRuntime) -> io::Result<()> {
    // what is computed here stands proved of the definitions
    figures_stand();
    let alloc = rt.alloc();
    let figures = [
        rank_of_five(),
        ranks_in_all_ones(),
        sizes(),
        values_stand_by_bit(alloc),
        five_puts_move_the_run(alloc),
        fourteen_cells_are_too_few(alloc),
        a_take_moves_the_run_back(alloc),
        a_take_wants_a_cell_more(alloc),
        the_walk_goes_by_falling_child(alloc),
        bits_are_checked(alloc),
        no_cells_refuse_the_first_opening(alloc),
    ];
    for (i, sound) in figures.iter().enumerate() {
        let word = if *sound { "ok" } else { "bad" };
        println!(rt; "{} {word}", i + 1)?;
    }
    Ok(())
}
