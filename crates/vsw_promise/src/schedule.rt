//! The commands of a run, by the packets that they name.

ghost use Rattle.std.specs.Prelude.{◌≡◌, ◌<◌, ◌≤◌, ◌+◌, ◌^◌, ◌==◌, ◌-◌, ℕ, Some, IfOk, OnOk, length, map, filter, take, drop};
ghost use Rattle.std.specs.List.{slice_get};
ghost use Rattle.std.specs.List.Sorted.{IsPermutation, IsNonDecreasing, IsNonDecreasingBy};
ghost use Rattle.vsw_promise.specs.Schedule.{commands_at, next_at};
ghost use Rattle.vsw_promise.specs.Index.{count_below, entries_from};

use std::alloc::Global;
use std::marker::Model;
use vsw_base::{Items, NoMemory};
use vsw_commandfile::Line;

/// The packet that a command names, and the command's place in the file.
#[derive(Clone, Copy)]
struct Entry {
    at: u32,
    place: u32,
}

/// The commands of a run, which can be had by the packet with which their round begins.
#[derive(Drop)]
pub struct Schedule {
    lines: Items<Line>,
    /// The packets that commands name, in ascending order.
    firsts: Vec<u32>,
    /// Beside each the place of its command in the file.
    places: Vec<u32>,
}

impl Model for Schedule {
    ghost use Rattle.std.specs.Prelude.{List};
    ghost use Rattle.vsw_commandfile.specs.declared.line.Line.{Line};
    ghost use Rattle.vsw_promise.specs.Index.{IsIndex};

    ghost Value = { List Line };

    ghost view = { λ s. s.lines };

    ghost invariant = { λ s. IsIndex s.lines s.firsts.items s.places.items };
}

/// The commands' packets and places, in file order.
fn entries_of(alloc: Global, lines: &[Line]) -> Result<Vec<Entry>, NoMemory>
    requires { length lines.now ≤ 2 ^ 32 }
    ensures { IfOk result (λ v. v.items ≡ entries_from 0 lines.now) }
{
    let mut entries = Vec::new(alloc);
    for place in 0..lines.len() {
        let entry = Entry {
            at: lines[place].at,
            place: place as u32,
        };
        if entries.push(entry).is_err() {
            return Err(NoMemory);
        }
    }
    Ok(entries)
}

/// Puts entries by their packets. Those of one packet stay in order.
fn put_in_order(entries: &mut Vec<Entry>) -> Result<(), NoMemory>
    ensures permutation { IsPermutation entries.old.items entries.new.items }
    ensures in_order { OnOk result (IsNonDecreasingBy (λ e. e.at) entries.new.items) }
    ensures stable { OnOk result ((n : ℕ) → filter (λ e. e.at == n) entries.new.items ≡ filter (λ e. e.at == n) entries.old.items) }
{
    match entries.sort_by_key(|entry| entry.at) {
        Ok(()) => Ok(()),
        Err(_) => Err(NoMemory),
    }
}

fn firsts_of(alloc: Global, entries: &[Entry]) -> Result<Vec<u32>, NoMemory>
    ensures { IfOk result (λ v. v.items ≡ map (λ e. e.at) entries.now) }
{
    let mut firsts = Vec::new(alloc);
    for entry in entries {
        if firsts.push(entry.at).is_err() {
            return Err(NoMemory);
        }
    }
    Ok(firsts)
}

fn places_of(alloc: Global, entries: &[Entry]) -> Result<Vec<u32>, NoMemory>
    ensures { IfOk result (λ v. v.items ≡ map (λ e. e.place) entries.now) }
{
    let mut places = Vec::new(alloc);
    for entry in entries {
        if places.push(entry.place).is_err() {
            return Err(NoMemory);
        }
    }
    Ok(places)
}

/// How many of the packets stand below a limit.
fn below(firsts: &[u32], limit: u64) -> usize
    requires { IsNonDecreasing firsts.now }
    ensures { result ≡ count_below limit firsts.now }
{
    firsts.partition_point(|first| u64::from(*first) < limit)
}

/// The part from one place up to another.
fn part(places: &[u32], from: usize, to: usize) -> &[u32]
    requires { (from ≤ to) × (to ≤ length places.now) }
    ensures { result.now ≡ take (to - from) (drop from places.now) }
{
    &places[from..to]
}

impl Schedule {
    /// The commands of a file, in its order. That there are more than 2^32 counts as want of memory.
    pub fn new(alloc: Global, lines: Items<Line>) -> Result<Schedule, NoMemory>
        ensures { IfOk result (λ schedule. schedule ≡ lines) }
    {
        if lines.len() > 0x1_0000_0000 {
            return Err(NoMemory);
        }
        let mut entries = entries_of(alloc, lines.as_slice())?;
        put_in_order(&mut entries)?;
        let firsts = firsts_of(alloc, &entries)?;
        let places = places_of(alloc, &entries)?;
        Ok(Schedule {
            lines,
            firsts,
            places,
        })
    }

    /// The places, in the file, of the commands whose round begins with this packet, in its order.
    pub fn places(&self, first: u32) -> &[u32]
        ensures { map (λ place. slice_get self.now place) result.now ≡ map Some (commands_at first self.now) }
    {
        let from = below(&self.firsts, u64::from(first));
        let to = below(&self.firsts, u64::from(first) + 1);
        part(&self.places, from, to)
    }

    /// The command at a place.
    pub fn line(&self, place: u32) -> &Line
        requires { place < length self.now }
        ensures { slice_get self.now place ≡ Some result.now }
    {
        &self.lines.as_slice()[place as usize]
    }

    /// The first packet from this one on that a command names.
    pub fn next(&self, low: u32) -> Option<u32>
        ensures { result ≡ next_at low self.now }
    {
        let from = below(&self.firsts, u64::from(low));
        self.firsts.get(from).copied()
    }

    /// The first packet after this one that a command names.
    pub fn after(&self, first: u32) -> Option<u32>
        ensures { result ≡ next_at (first + 1) self.now }
    {
        let from = below(&self.firsts, u64::from(first) + 1);
        self.firsts.get(from).copied()
    }
}
