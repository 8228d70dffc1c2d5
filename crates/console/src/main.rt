// Plays scripts of calls on a table and prints one answer a line. docs/CONSOLE.md tells the language.
#![tactic(auto)]

mod line;
mod play;
mod stores;
mod value;

use line::{Line, Start};
use play::History;
use runs::entry::StreamRecord;
use std::io::{BufRead, BufReader};
use std::marker::PhantomData;
use std::{env, io};
use stores::Client;
use value::Value;

const HELP: &str = "console [--stream] < script

Plays a script of calls on a table and prints one answer a line.

  get PATH BIT | put PATH BIT VALUE | swap PATH BIT VALUE | take PATH BIT
  add PATH CHILDBIT | plant PATH CHILDBIT VALUE | drop PATH CHILDBIT
  show PATH | claimed | walk
  start NODESTORE VALUESTORE

PATH is child bits joined by '.', or '-' for the root. A store is t:CELLS (tiered), f:CELLS (flat)
or qLIMIT:STORE (a quota over a store, at most two). VALUE is a number, or output/queue/rate with
--stream. Empty lines and lines that begin with # are passed over.";

// All lines of the script.
fn read_lines(rt: &HostRuntime) -> io::Result<Vec<Line>> {
    let mut lines = Vec::new(rt.alloc());
    for text in BufReader::new(rt.alloc(), rt.stdin())?.lines(rt.alloc()) {
        lines.push(Line {
            number: lines.len().saturating_add(1),
            text: text?,
        })?;
    }
    Ok(lines)
}

fn is_start(line: &Line) -> bool {
    line.text.parse::<Start>().is_ok()
}

fn is_walk(line: &Line) -> bool {
    line.text.trim() == "walk"
}

fn play_history<E: Value>(rt: &HostRuntime, start: Start, lines: &[Line]) -> io::Result<()> {
    let history = History::<E> {
        rt,
        lines,
        values: start.values,
        of: PhantomData,
    };
    history.with_kind(rt, start.nodes)
}

// A script is a list of histories: each goes to a `walk`, to the next `start`, or to the end. Without a `start` it is on fresh stores like those before.
fn play_script<E: Value>(rt: &HostRuntime, lines: &[Line]) -> io::Result<()> {
    let mut stores = Start::ROOMY;
    for history in lines.chunk_by(|line, next| !is_walk(line) && !is_start(next)) {
        let Some((first, rest)) = history.split_first() else {
            return Ok(());
        };
        match first.text.parse::<Start>() {
            Ok(start) => {
                println!(rt; "ok")?;
                stores = start;
                play_history::<E>(rt, stores, rest)?;
            }
            Err(_) => play_history::<E>(rt, stores, history)?,
        }
    }
    Ok(())
}

fn main(rt: HostRuntime) -> io::Result<()> {
    let mut stream = false;
    for word in env::args(&rt)?.skip(1) {
        if word.as_str() != "--stream" {
            return println!(rt; "{HELP}");
        }
        stream = true;
    }
    let lines = read_lines(&rt)?;
    // the kind of value is known from here on
    if stream {
        play_script::<StreamRecord>(&rt, &lines)
    } else {
        play_script::<u32>(&rt, &lines)
    }
}
