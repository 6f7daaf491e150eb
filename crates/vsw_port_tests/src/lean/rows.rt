//! Rows of some identities, and what they lean on.

ghost use Rattle.std.specs.Prelude.{◌<◌, ◌^◌};

use crate::lean::packets::packet;
use crate::lean::trial::{Row, Trial};
use std::alloc::Global;
use vsw_base::{Control, Ufid};
use vsw_walk::Looked;

/// Rows that are all current.
#[derive(Drop)]
pub struct Rows {
    ids: Vec<Ufid>,
    rows: Vec<Row>,
    pub looks: Vec<Looked>,
}

/// Appends a row and what was looked for. Whether memory sufficed.
fn push(rows: &mut Vec<Row>, looks: &mut Vec<Looked>, row: Row, looked: &[Looked]) -> bool {
    rows.push(row).is_ok() && looks.extend_from_slice(looked).is_ok()
}

/// Appends the rows of these identities. Whether memory sufficed.
fn walk_all(ids: &[Ufid], rows: &mut Vec<Row>, looks: &mut Vec<Looked>, trial: &mut Trial) -> bool {
    for id in ids {
        let row = trial.row(id);
        if !push(rows, looks, row, trial.scratch.looked()) {
            return false;
        }
    }
    true
}

impl Rows {
    /// No rows.
    pub fn new(alloc: Global) -> Rows {
        Rows {
            ids: Vec::new(alloc),
            rows: Vec::new(alloc),
            looks: Vec::new(alloc),
        }
    }

    /// One identity more. Whether memory sufficed.
    pub fn add(&mut self, id: Ufid) -> bool {
        self.ids.push(id).is_ok()
    }

    /// All rows are made anew. Whether memory sufficed.
    pub fn renew(&mut self, trial: &mut Trial) -> bool {
        self.rows.clear();
        self.looks.clear();
        walk_all(&self.ids, &mut self.rows, &mut self.looks, trial)
    }

    /// Whether each row is what a walk gives.
    pub fn are_right(&self, trial: &mut Trial) -> bool {
        for (id, row) in self.ids.iter().zip(self.rows.iter()) {
            if !trial.row(id).is_same(row) {
                return false;
            }
        }
        true
    }
}
