// Kinds of value, as a script writes them.
use runs::entry::{Entry, StreamRecord};
use std::fmt::Display;
use std::str::FromStr;

// A fresh cell holds the default.
pub trait Value: Entry + Clone + Default + Display + FromStr<Err: Drop> {}

impl Value for u32 {}

impl Value for StreamRecord {}
