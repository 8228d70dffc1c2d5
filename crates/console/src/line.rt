// What the lines of a script say: a start, which names two stores, or a call.
ghost use Rattle.std.specs.Prelude.{◌≡◌, ◌≤◌};

use arrayvec::{ArrayVec, CapacityError};
use bitmap::Bit;
use std::num::ParseIntError;
use std::str::{FromStr, SplitWhitespace};

// A line, and its number from 1.
#[derive(Drop)]
pub struct Line {
    pub number: usize,
    pub text: String,
}

// A text that is none of these.
#[derive(Clone, Copy, Debug, PartialEq, Eq)]
pub struct NoCall;

impl From<ParseIntError> for NoCall {
    fn from(_: ParseIntError) -> NoCall {
        NoCall
    }
}

impl From<CapacityError<u8>> for NoCall {
    fn from(_: CapacityError<u8>) -> NoCall {
        NoCall
    }
}

// A path as it is written: up to 31 bytes, so that a path that is too long can be met.
#[derive(Drop)]
pub struct Steps {
    bytes: ArrayVec<u8, 31>,
}

impl Steps {
    pub fn bytes(&self) -> &[u8]
        ensures { result.now ≡ self.now.bytes.items }
    {
        self.bytes.as_slice()
    }
}

// Child bits joined by '.', or '-' for the empty path.
impl FromStr for Steps {
    type Err = NoCall;

    fn from_str(word: &str) -> Result<Steps, NoCall> {
        let mut bytes = ArrayVec::new();
        if word != "-" {
            for part in word.split('.') {
                bytes.try_push(part.parse::<u8>()?)?;
            }
        }
        Ok(Steps { bytes })
    }
}

#[derive(Drop)]
pub enum Call<E> {
    Get(Steps, Bit),
    Put(Steps, Bit, E),
    Swap(Steps, Bit, E),
    Take(Steps, Bit),
    Add(Steps, Bit),
    Plant(Steps, Bit, E),
    Drop(Steps, Bit),
    Show(Steps),
    Claimed,
    Walk,
}

// The next word, read.
fn next<T: FromStr>(words: &mut SplitWhitespace<'_>) -> Result<T, NoCall>
where
    T::Err: Drop,
{
    words.next().ok_or(NoCall)?.parse::<T>().map_err(|_| NoCall)
}

fn bit(words: &mut SplitWhitespace<'_>) -> Result<Bit, NoCall> {
    Ok(Bit {
        number: u32::from(next::<u8>(words)?),
    })
}

fn end(words: &mut SplitWhitespace<'_>) -> Result<(), NoCall> {
    match words.next() {
        Some(_) => Err(NoCall),
        None => Ok(()),
    }
}

impl<E: FromStr + Drop> FromStr for Call<E>
where
    E::Err: Drop,
{
    type Err = NoCall;

    fn from_str(line: &str) -> Result<Call<E>, NoCall> {
        let mut words = line.split_whitespace();
        let w = &mut words;
        let call = match w.next().ok_or(NoCall)? {
            "get" => Call::Get(next(w)?, bit(w)?),
            "put" => Call::Put(next(w)?, bit(w)?, next(w)?),
            "swap" => Call::Swap(next(w)?, bit(w)?, next(w)?),
            "take" => Call::Take(next(w)?, bit(w)?),
            "add" => Call::Add(next(w)?, bit(w)?),
            "plant" => Call::Plant(next(w)?, bit(w)?, next(w)?),
            "drop" => Call::Drop(next(w)?, bit(w)?),
            "show" => Call::Show(next(w)?),
            "claimed" => Call::Claimed,
            "walk" => Call::Walk,
            _ => return Err(NoCall),
        };
        end(w)?;
        Ok(call)
    }
}

#[derive(Clone, Copy)]
pub enum Base {
    Tiered,
    Flat,
}

// A store by its name: what it is at the bottom, and the limits of the quotas over it.
#[derive(Clone, Copy)]
pub struct StoreKind {
    pub base: Base,
    pub cells: usize,
    pub inner: Option<u32>,
    pub outer: Option<u32>,
    // as many as there are indexes
    ghost few: { cells ≤ 16777216 },
}

// The limit that a name begins with, if it does, and the name of the store below.
fn limit(word: &str) -> Result<(Option<u32>, &str), NoCall> {
    match word.strip_prefix('q') {
        Some(rest) => {
            let (limit, below) = rest.split_once(':').ok_or(NoCall)?;
            Ok((Some(limit.parse::<u32>()?), below))
        }
        None => Ok((None, word)),
    }
}

// t:CELLS, f:CELLS, or qLIMIT: before a store.
impl FromStr for StoreKind {
    type Err = NoCall;

    fn from_str(word: &str) -> Result<StoreKind, NoCall> {
        let (outer, word) = limit(word)?;
        let (inner, word) = limit(word)?;
        let (base, cells) = word.split_once(':').ok_or(NoCall)?;
        let base = match base {
            "t" => Base::Tiered,
            "f" => Base::Flat,
            _ => return Err(NoCall),
        };
        let cells = cells.parse::<usize>()?;
        if cells > 16777216 {
            return Err(NoCall);
        }
        Ok(StoreKind {
            base,
            cells,
            inner,
            outer,
        })
    }
}

#[derive(Clone, Copy)]
pub struct Start {
    pub nodes: StoreKind,
    pub values: StoreKind,
}

impl Start {
    // Where a script names no stores: tiered ones with room for any script of some hundred thousand calls.
    pub const ROOMY: Start = Start {
        nodes: StoreKind {
            base: Base::Tiered,
            cells: 1048576,
            inner: None,
            outer: None,
        },
        values: StoreKind {
            base: Base::Tiered,
            cells: 1048576,
            inner: None,
            outer: None,
        },
    };
}

impl FromStr for Start {
    type Err = NoCall;

    fn from_str(line: &str) -> Result<Start, NoCall> {
        let mut words = line.split_whitespace();
        let w = &mut words;
        if w.next().ok_or(NoCall)? != "start" {
            return Err(NoCall);
        }
        let start = Start {
            nodes: next(w)?,
            values: next(w)?,
        };
        end(w)?;
        Ok(start)
    }
}
