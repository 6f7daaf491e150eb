//! What a record of loads shows. No value of these types is made: they tell contracts what an actor has loaded.
use std::collections::LinkedList;

/// A row as a record shows it: its stamp, and the words that were loaded, each with its place, the newest first.
pub struct Seen {
    pub row: u64,
    pub stamp: u64,
    pub words: LinkedList<(u64, u64)>,
}

/// A record of loads: the rows that it holds and, once it is closed, how many entries were counted.
pub struct Record {
    pub count: Option<u64>,
    pub rows: LinkedList<Seen>,
}
