// The lines of one history, played on a table.
use crate::line::{Call, Line, StoreKind};
use crate::stores::Client;
use crate::value::Value;
use bitmap::Bit;
use claims::Claims;
use history::call::{Answer, Call as TableCall};
use history::history::history;
use history::left::{Last, NoHistory};
use history::watch::Watch;
use nodes::fault::Fault;
use runs::entry::NodeRow;
use runs::store::RunStore;
use std::alloc::AllocError;
use std::io;
use std::marker::PhantomData;
use table::Table;

// A line that is not passed over, and the call that it says, if it says one.
#[derive(Drop)]
struct Said<'a, E> {
    line: &'a Line,
    call: Option<Call<E>>,
}

fn read<'a, E: Value>(rt: &HostRuntime, lines: &'a [Line]) -> io::Result<Vec<Said<'a, E>>> {
    let mut said = Vec::new(rt.alloc());
    for line in lines {
        let text = line.text.trim();
        if !text.is_empty() && !text.starts_with('#') {
            said.push(Said {
                line,
                call: text.parse::<Call<E>>().ok(),
            })?;
        }
    }
    Ok(said)
}

// The call on the table; none of a look at the stores, nor of a walk.
fn on_table<E: Value>(call: &Call<E>) -> Option<TableCall<'_, E>> {
    Some(match call {
        Call::Get(path, bit) => TableCall::Get(path.bytes(), *bit),
        Call::Put(path, bit, value) => TableCall::Put(path.bytes(), *bit, *value),
        Call::Swap(path, bit, value) => TableCall::Swap(path.bytes(), *bit, *value),
        Call::Take(path, bit) => TableCall::Take(path.bytes(), *bit),
        Call::Add(path, bit) => TableCall::Add(path.bytes(), *bit),
        Call::Plant(path, bit, value) => TableCall::Plant(path.bytes(), *bit, *value),
        Call::Drop(path, bit) => TableCall::Drop(path.bytes(), *bit),
        Call::Show(path) => TableCall::Show(path.bytes()),
        Call::Claimed | Call::Walk => return None,
    })
}

fn calls_on_table<'s, E: Value>(
    rt: &HostRuntime,
    lines: &'s [Said<'_, E>],
) -> io::Result<Vec<TableCall<'s, E>>> {
    let mut calls = Vec::new(rt.alloc());
    for said in lines {
        if let Some(call) = &said.call {
            if let Some(call) = on_table(call) {
                calls.push(call)?;
            }
        }
    }
    Ok(calls)
}

fn ends_by_walk<E>(said: &[Said<'_, E>]) -> bool {
    matches!(
        said.last(),
        Some(Said {
            call: Some(Call::Walk),
            ..
        })
    )
}

// Prints the answers as they are given, and what the lines between the calls ask for.
#[derive(Drop)]
struct Printer<'r, 's, 'l, E> {
    rt: &'r HostRuntime,
    // from the next call on
    said: &'s [Said<'l, E>],
    printed: io::Result<()>,
}

impl<'r, 's, 'l, E: Value> Printer<'r, 's, 'l, E> {
    // All lines before the next call, whose own line is taken.
    fn to_next_call(&mut self, values: u32, nodes: u32) -> io::Result<()> {
        let lines = self.said;
        for (i, said) in lines.iter().enumerate() {
            match &said.call {
                Some(Call::Claimed) => println!(self.rt; "ok {values} {nodes}")?,
                Some(_) => {
                    self.said = &lines[i + 1..];
                    return Ok(());
                }
                None => {
                    let text = said.line.text.trim();
                    println!(self.rt; "line {}: no call: {text}", said.line.number)?;
                }
            }
        }
        self.said = &[];
        Ok(())
    }

    fn answer(&self, answer: &Result<Answer<E>, Fault>) -> io::Result<()> {
        match answer {
            Ok(Answer::Done) => println!(self.rt; "ok"),
            Ok(Answer::Value(value)) => println!(self.rt; "ok {value}"),
            Ok(Answer::Node(row)) => println!(self.rt; "ok {row}"),
            Err(fault) => println!(self.rt; "refused {fault}"),
        }
    }
}

impl<
    'r,
    's,
    'l,
    E: Value,
    N: RunStore<Item = NodeRow> + Claims,
    V: RunStore<Item = E> + Claims,
> Watch<E, N, V> for Printer<'r, 's, 'l, E> {
    fn see(&mut self, table: &Table<N, V>, answer: &Result<Answer<E>, Fault>) {
        if self.printed.is_ok() {
            self.printed = self.answer(answer);
        }
        if self.printed.is_ok() {
            let values = table.values().claimed_cells();
            let nodes = table.nodes().claimed_cells();
            self.printed = self.to_next_call(values, nodes);
        }
    }
}

// What a walk hands out: each value with its bit.
fn print_walk<E: Value>(rt: &HostRuntime, nexts: &[Option<(Bit, E)>]) -> io::Result<()> {
    for next in nexts {
        if let Some((bit, value)) = next {
            println!(rt; "{} {value}", bit.number)?;
        }
    }
    Ok(())
}

// The lines of one history, on a table over two stores. It has no more values than calls, so that so many nexts are all.
fn play_lines<
    E: Value,
    N: RunStore<Item = NodeRow> + Claims + Drop,
    V: RunStore<Item = E> + Claims + Drop,
>(rt: &HostRuntime, lines: &[Line], nodes: N, values: V) -> io::Result<()> {
    let said = read::<E>(rt, lines)?;
    let calls = calls_on_table(rt, said.as_slice())?;
    let mut printer = Printer {
        rt,
        said: said.as_slice(),
        printed: Ok(()),
    };
    printer.to_next_call(values.claimed_cells(), nodes.claimed_cells())?;
    let last = if ends_by_walk(said.as_slice()) {
        Last::End(calls.len())
    } else {
        Last::Stay
    };
    match history(
        rt.alloc(),
        nodes,
        values,
        calls.as_slice(),
        last,
        &mut printer,
    ) {
        Ok(played) => {
            printer.printed?;
            print_walk(rt, played.nexts.as_slice())
        }
        Err(NoHistory::NotStarted(back)) => println!(rt; "refused {back}"),
        Err(NoHistory::NoMemory(_, _)) => Err(io::Error::from(AllocError)),
    }
}

// One history on fresh stores. With the node store, the value store is opened.
#[derive(Drop)]
pub struct History<'a, E> {
    pub rt: &'a HostRuntime,
    pub lines: &'a [Line],
    pub values: StoreKind,
    pub of: PhantomData<E>,
}

impl<'a, E: Value> Client<NodeRow> for History<'a, E> {
    fn with<S: RunStore<Item = NodeRow> + Claims + Drop>(self, store: S) -> io::Result<()> {
        let client = WithNodes {
            rt: self.rt,
            lines: self.lines,
            nodes: store,
        };
        Client::<E>::with_kind(client, self.rt, self.values)
    }
}

// With both, the lines are played.
#[derive(Drop)]
struct WithNodes<'a, N> {
    rt: &'a HostRuntime,
    lines: &'a [Line],
    nodes: N,
}

impl<'a, E: Value, N: RunStore<Item = NodeRow> + Claims + Drop> Client<E> for WithNodes<'a, N> {
    fn with<S: RunStore<Item = E> + Claims + Drop>(self, store: S) -> io::Result<()> {
        let WithNodes { rt, lines, nodes } = self;
        play_lines(rt, lines, nodes, store)
    }
}
