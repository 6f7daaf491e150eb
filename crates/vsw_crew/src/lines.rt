//! What rows of lanes tell, and how much their callers have seen.

ghost use Rattle.std.specs.Prelude.{◌≡◌, ◌++◌, ◌∷◌, [], IfOk, IsTrue, OnOk, length, map};
ghost use Rattle.vsw_crew.specs.Private.Rows.{AreGone, cleared, cleared_lane, counts_of, first_counts, lines_of, rested, rested_lane};
ghost use Rattle.vsw_harbour.specs.HarbourOpening.{rows_in};
ghost use Rattle.vsw_harbour.specs.Standing.{IsWhole};
ghost use Rattle.vsw_policy.specs.Sound.{Each};

use crate::Lines;
use std::alloc::Global;
use vsw_base::NoMemory;
use vsw_harbour::{Lane, Station};
use vsw_report::Caller;

/// Puts a count at the end. That it has more than 32 bits counts as want of memory.
fn add_count(count: usize, counts: &mut Vec<u32>) -> Result<(), NoMemory>
    ensures { OnOk result (counts.new.items ≡ counts.old.items ++ count ∷ []) }
{
    if count > u32::MAX as usize {
        return Err(NoMemory);
    }
    match counts.push(count as u32) {
        Ok(()) => Ok(()),
        Err(_) => Err(NoMemory),
    }
}

fn add_counts(row: &[Lane<Station>], counts: &mut Vec<u32>) -> Result<(), NoMemory>
    ensures { OnOk result (counts.new.items ≡ counts.old.items ++ counts_of row.now) }
{
    if let Some((lane, others)) = row.split_first() {
        add_count(lane.base, counts)?;
        add_counts(others, counts)?;
    }
    Ok(())
}

/// How many entries of each port the first of these callers has seen.
pub(crate) fn count_first(alloc: Global, rows: &[Vec<Lane<Station>>]) -> Result<Vec<u32>, NoMemory>
    ensures { IfOk result (λ counts. counts.items ≡ first_counts (rows_in rows.now)) }
{
    let mut counts = Vec::new(alloc);
    if let Some((row, _)) = rows.split_first() {
        add_counts(row, &mut counts)?;
    }
    Ok(counts)
}

/// Whether a row tells all that its caller did.
fn is_whole(row: &[Lane<Station>]) -> bool
    ensures { IsTrue result → IsWhole row.now }
{
    match row.split_first() {
        None => true,
        Some((lane, others)) => lane.station.is_whole() && is_whole(others),
    }
}

/// Whether all rows tell all that their callers did.
pub(crate) fn are_whole(rows: &[Vec<Lane<Station>>]) -> bool
    ensures { IsTrue result → Each IsWhole (rows_in rows.now) }
{
    match rows.split_first() {
        None => true,
        Some((row, others)) => is_whole(row) && are_whole(others),
    }
}

fn take_lane(alloc: Global, lane: &mut Lane<Station>) -> Caller
    ensures lines { result ≡ lane.old.station.lines }
    ensures lane { lane.new ≡ cleared_lane lane.old }
{
    lane.station.take_lines(alloc)
}

fn take_lanes(alloc: Global, row: &mut [Lane<Station>], lines: &mut Lines) -> Result<(), NoMemory>
    ensures lines { OnOk result (lines.new ≡ lines.old ++ lines_of row.old) }
    ensures row { OnOk result (row.new ≡ cleared row.old) }
{
    if let Some((lane, others)) = row.split_first_mut() {
        lines.push(take_lane(alloc, lane))?;
        take_lanes(alloc, others, lines)?;
    }
    Ok(())
}

/// Takes the lines of a row.
fn take_row(alloc: Global, row: &mut Vec<Lane<Station>>) -> Result<Lines, NoMemory>
    ensures lines { IfOk result (λ lines. lines ≡ lines_of row.old.items) }
    ensures row { OnOk result (row.new.items ≡ cleared row.old.items) }
{
    let mut lines = Lines::new(alloc);
    take_lanes(alloc, row.as_mut_slice(), &mut lines)?;
    Ok(lines)
}

fn put(all: &mut Vec<Lines>, one: Lines) -> Result<(), NoMemory>
    ensures { OnOk result (all.new.items ≡ all.old.items ++ one ∷ []) }
{
    match all.push(one) {
        Ok(()) => Ok(()),
        Err(_) => Err(NoMemory),
    }
}

/// Takes the lines of rows, and puts them at the end.
pub(crate) fn take_rows(
    alloc: Global,
    rows: &mut [Vec<Lane<Station>>],
    all: &mut Vec<Lines>,
) -> Result<(), NoMemory>
    ensures lines { OnOk result (all.new.items ≡ all.old.items ++ map lines_of (rows_in rows.old)) }
    ensures rows { OnOk result (rows_in rows.new ≡ map cleared (rows_in rows.old)) }
{
    if let Some((row, others)) = rows.split_first_mut() {
        put(all, take_row(alloc, row)?)?;
        take_rows(alloc, others, all)?;
    }
    Ok(())
}

/// Takes the lines of all rows.
pub(crate) fn take_all(
    alloc: Global,
    rows: &mut Vec<Vec<Lane<Station>>>,
) -> Result<Vec<Lines>, NoMemory>
    ensures lines { IfOk result (λ lines. lines.items ≡ map lines_of (rows_in rows.old.items)) }
    ensures rows { OnOk result (rows_in rows.new.items ≡ map cleared (rows_in rows.old.items)) }
{
    let mut lines = Vec::new(alloc);
    take_rows(alloc, rows.as_mut_slice(), &mut lines)?;
    Ok(lines)
}

/// Gives a lane the room of lines that were told.
fn give_lane(lane: &mut Lane<Station>, room: Caller)
    requires { room ≡ [] }
    ensures { lane.new ≡ rested_lane lane.old }
{
    lane.station.put_lines(room);
}

/// Gives the lanes of a row the rooms of a caller's lines, those from a place on.
fn give_lanes(alloc: Global, row: &mut [Lane<Station>], rooms: &mut Lines, place: usize)
    requires { AreGone rooms.old }
    ensures { row.new ≡ rested row.old }
{
    if let Some((lane, others)) = row.split_first_mut() {
        give_lane(lane, rooms.take(alloc, place));
        give_lanes(alloc, others, rooms, place.wrapping_add(1));
    }
}

fn give_row(alloc: Global, row: &mut Vec<Lane<Station>>, rooms: &mut Lines)
    requires { AreGone rooms.old }
    ensures { row.new.items ≡ rested row.old.items }
{
    give_lanes(alloc, row.as_mut_slice(), rooms, 0);
}

fn give_rows(alloc: Global, rows: &mut [Vec<Lane<Station>>], rooms: &mut [Lines])
    requires same { length rooms.old ≡ length rows.old }
    requires gone { Each AreGone rooms.old }
    ensures { rows_in rows.new ≡ map rested (rows_in rows.old) }
{
    if let Some((row, others)) = rows.split_first_mut() {
        if let Some((own, left)) = rooms.split_first_mut() {
            give_row(alloc, row, own);
            give_rows(alloc, others, left);
        }
    }
}

/// Gives rows the rooms of their lines, which were told, for those of the next round.
pub(crate) fn give_all(alloc: Global, rows: &mut Vec<Vec<Lane<Station>>>, rooms: &mut Vec<Lines>)
    requires same { length rooms.old.items ≡ length rows.old.items }
    requires gone { Each AreGone rooms.old.items }
    ensures { rows_in rows.new.items ≡ map rested (rows_in rows.old.items) }
{
    give_rows(alloc, rows.as_mut_slice(), rooms.as_mut_slice());
}
