//! The actor that reconciles rows, beside those that carry and ask.

ghost use Rattle.std.specs.Prelude.{◌≡◌, ◌<◌, ◌+◌, ◌-◌, ℕ, MatchBool};
ghost use Rattle.vsw_actors.specs.Private.Reconciling.{HasOneMore, HasNone, row_in_turn};

use std::marker::Model;
use std::sync::Wait;

/// Rows of each port that are reconciled in a round, where it has as many.
const ROWS_A_ROUND: u32 = 256;

/// A port whose rows are reconciled in turn, which changes no answer.
pub trait RowPort {
    ghost row_count: { Self → ℕ };

    /// How many rows it has.
    fn rows(&self) -> u32
        ensures { result ≡ row_count self.now };

    /// Compares a row with what the port says now, and makes it current where that can be.
    fn reconcile<R: Wait>(&self, rt: &R, row: u32)
        requires { row < row_count self.now };
}

/// The reconciler in a round: the ports, which round it is, the row that comes next, and how many of how many jobs are left.
#[derive(Drop)]
pub(crate) struct Reconciler<'a, P> {
    ports: &'a [P],
    round: u32,
    next: Next,
    all: u32,
    left: u32,
}

/// The place of a port, and how many of its rows came before in this round.
#[derive(Clone, Copy)]
pub(crate) struct Next {
    place: usize,
    before: u32,
}

impl<'a, P> Model for Reconciler<'a, P> {
    ghost use Rattle.std.specs.Prelude.{◌≤◌, ◌-◌};
    ghost use Rattle.vsw_actors.specs.Private.Reconciling.{Tally};

    ghost Value = { Tally };

    ghost view = { λ r. record { done = r.all - r.left; left = r.left } };

    ghost invariant = { λ r. r.left ≤ r.all };
}

impl<'a, P: RowPort> Reconciler<'a, P> {
    /// Begins the round of this number.
    pub(crate) fn begin(ports: &'a [P], round: u32) -> Reconciler<'a, P> {
        let all = count_jobs(ports);
        Reconciler {
            ports,
            round,
            next: Next {
                place: 0,
                before: 0,
            },
            all,
            left: all,
        }
    }

    /// Reconciles the next row; false where none is left.
    pub(crate) fn job<R: Wait>(&mut self, rt: &R) -> bool
        ensures { MatchBool result (HasOneMore self.old self.new) (HasNone self.old self.new) }
    {
        if self.left == 0 {
            return false;
        }
        self.next = reconcile_next(rt, self.ports, self.round, self.next);
        self.left -= 1;
        true
    }

    /// Rows that are left.
    pub(crate) fn left(&self) -> u32
        ensures { result ≡ self.now.left }
    {
        self.left
    }
}

/// Reconciles rows of these ports in the round of this number, as many as a round does.
pub fn reconcile_rows<P: RowPort, R: Wait>(rt: &R, ports: &[P], round: u32) {
    let mut reconciler = Reconciler::begin(ports, round);
    for row in 0..reconciler.left() {
        reconciler.job(rt);
    }
}

/// How many rows of these ports are reconciled in a round.
fn count_jobs<P: RowPort>(ports: &[P]) -> u32 {
    match ports.split_first() {
        None => 0,
        Some((port, others)) => count_jobs(others).saturating_add(port.rows().min(ROWS_A_ROUND)),
    }
}

/// The row that comes in a round when so many rows of its port came before.
fn row_at(round: u32, before: u32, rows: u32) -> u32
    requires { 0 < rows }
    ensures row { result ≡ row_in_turn round before rows }
    ensures low { result < rows }
{
    ((u64::from(round) * 256 + u64::from(before)) % u64::from(rows)) as u32
}

/// Reconciles a row, and tells which one comes next.
fn reconcile_next<P: RowPort, R: Wait>(rt: &R, ports: &[P], round: u32, next: Next) -> Next {
    let mut before = next.before;
    for place in next.place..ports.len() {
        let port = &ports[place];
        let rows = port.rows();
        if before < rows.min(ROWS_A_ROUND) {
            port.reconcile(rt, row_at(round, before, rows));
            return Next {
                place,
                before: before + 1,
            };
        }
        before = 0;
    }
    next
}
