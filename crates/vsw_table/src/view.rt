//! What a seat knows of the table. No value of it is made.
use std::collections::LinkedList;
use vsw_stamps::Record;

/// A row as a look has tried it: its stamp, its first words, and the stamp that it had afterwards, if that was loaded.
pub struct Tried {
    pub row: u64,
    pub stamp: u64,
    pub words: LinkedList<u64>,
    pub again: Option<u64>,
}

/// What a seat keeps: the writer's, a pass's or a note's.
pub struct View<O, E> {
    // whether it is still a seat
    pub live: bool,
    // of the writer's seat
    pub writes: bool,
    pub history: LinkedList<E>,
    pub given: u64,
    pub passes: u64,
    pub kept: LinkedList<u64>,
    pub stamps: LinkedList<u64>,
    pub rows: LinkedList<LinkedList<u64>>,
    // of a pass's seat, or of the writer's while it is lent
    pub crosses: bool,
    pub number: u64,
    pub receipts: LinkedList<E>,
    pub permits: u64,
    // beginnings of the history that were seen, or told of
    pub front: LinkedList<E>,
    pub told: LinkedList<E>,
    pub opening: Option<O>,
    // the machine's record of what this seat has loaded
    pub shown: Record,
    // the rows that the look under way has tried, the newest first, those of the look before, and how many looks have ended
    pub tried: LinkedList<Tried>,
    pub last: LinkedList<Tried>,
    pub looks: u64,
}
