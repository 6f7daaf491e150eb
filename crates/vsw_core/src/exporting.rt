//! The rows that are current are given to be read elsewhere.

ghost use Rattle.std.specs.Prelude.{◌≡◌, ◌≤◌, ◌<◌, ◌^◌, ◌++◌, ◌∷◌, [], List, length, IfOk, OnOk};
ghost use Rattle.vsw_core.specs.Exporting.{AreGoodAt, IsWide, current_at, current_rows};
ghost use Rattle.vsw_flows.specs.Flows.{IsOf};
ghost use Rattle.vsw_policy.specs.Sound.{Each};
ghost use Rattle.vsw_rows.specs.GoodRows.{IsGoodRow, opening_of};

use std::alloc::Global;
use vsw_base::{Items, NoMemory};
use vsw_flows::{PortStory, Rows};
use vsw_port::Ledger;
use vsw_table::Lookup;

/// Rows of a port, and after how many entries of its history they are good.
#[derive(Drop)]
pub struct Exported {
    /// Entries of the history.
    pub count: u32,
    /// The words of each row: sixteen of a key, then 57 of a body.
    pub rows: Items<[u64; 73]>,
}

/// How many entries there are. That a row's stamp is loaded tells the proof that they are few.
fn count(lookup: &Lookup<PortStory>, ledger: &Ledger, rows: &mut Rows) -> u32
    requires core { IsOf lookup.now rows.old }
    requires journal { ledger.now.journal ≡ rows.old.view.history }
    ensures same { rows.new ≡ rows.old }
    ensures count { result ≡ length rows.old.view.history }
{
    let _ = lookup.rows();
    let _ = rows.is_current(lookup, 0);
    ledger.journal().len() as u32
}

/// Tells the proof that words have 64 bits each.
fn are_words(words: &[u64])
    ensures { Each (λ word. word < 2 ^ 64) words.now }
{}

/// Appends the words of a row.
fn append(words: &[u64; 73], out: &mut Items<[u64; 73]>) -> Result<(), NoMemory>
    ensures appended { OnOk result (out.new ≡ out.old ++ words.now ∷ []) }
    ensures wide { IsWide words.now }
{
    are_words(words);
    match out.push(*words) {
        Ok(()) => Ok(()),
        Err(_) => Err(NoMemory),
    }
}

/// Appends the row, if it is current.
fn take(
    lookup: &Lookup<PortStory>,
    rows: &mut Rows,
    row: u32,
    words: &mut [u64; 73],
    out: &mut Items<[u64; 73]>,
) -> Result<(), NoMemory>
    requires core { IsOf lookup.now rows.old }
    requires row { row < lookup.now.2 }
    ensures same { rows.new ≡ rows.old }
    ensures taken { OnOk result (out.new ≡ out.old ++ current_at rows.old row) }
    ensures good { OnOk result (Each (IsGoodRow (opening_of lookup.now.1) rows.old.view.history) (current_at rows.old row)) }
    ensures wide { OnOk result (Each IsWide (current_at rows.old row)) }
{
    if !rows.is_current(lookup, row) {
        return Ok(());
    }
    rows.words(lookup, row, words);
    append(words, out)
}

/// The rows that are current, in the order of their places. It changes nothing.
pub fn export(
    alloc: Global,
    lookup: &Lookup<PortStory>,
    ledger: &Ledger,
    rows: &mut Rows,
) -> Result<Exported, NoMemory>
    requires core { IsOf lookup.now rows.old }
    requires journal { ledger.now.journal ≡ rows.old.view.history }
    ensures same { rows.new ≡ rows.old }
    ensures rows { IfOk result (λ exported. exported.rows ≡ current_rows lookup.now.2 rows.old) }
    ensures good { IfOk result (AreGoodAt (opening_of lookup.now.1) rows.old.view.history) }
    ensures few { IfOk result (λ exported. length exported.rows ≤ lookup.now.2) }
{
    let count = count(lookup, ledger, rows);
    let mut taken = Items::new(alloc);
    let mut words = [0; 73];
    for row in 0..lookup.rows() {
        take(lookup, rows, row, &mut words, &mut taken)?;
    }
    Ok(Exported { count, rows: taken })
}
