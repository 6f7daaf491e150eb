//! The table of the rows that stand at spots.

ghost use Rattle.std.specs.Prelude.{◌≡◌, ◌≢◌, ◌<◌, ◌+◌, ℕ, true, false};
ghost use Rattle.vsw_flows.specs.declared.spot.Spot.{Spot};
ghost use Rattle.vsw_flows.specs.Leaners.{has};
ghost use Rattle.vsw_flows.specs.Spots.{leaners_in, stands, stood};

use crate::leaners::Leaners;
use crate::mixing::{Factors, place_of};
use crate::spot::Spot;
use std::alloc::Global;
use std::marker::Model;
use vsw_base::NoMemory;
use vsw_layerflow::HashSeed;

/// How many places there are for each spot on which rows may lean.
const PLACES: usize = 4;

/// At each place of a table the rows that stand there. Spots may share a place.
#[derive(Drop)]
pub struct Spread {
    factors: Factors,
    /// How many places are in use: no more than there are.
    count: u32,
    table: Vec<Leaners>,
}

impl Model for Spread {
    ghost use Rattle.vsw_flows.specs.Spots.{SpreadSeen};

    ghost Value = { SpreadSeen };

    ghost view = { λ s. record { factors = s.factors; count = s.count; table = s.table.items } };
}

/// Whether a row came to stand at a spot, and who gave way: its number and one, or 0 for nobody.
#[derive(Clone, Copy, Debug, PartialEq, Eq)]
pub struct Entered {
    pub done: bool,
    pub way: u32,
}

/// The rows that stand at a place.
fn leaners_at(table: &[Leaners], place: u32) -> Leaners
    ensures { result ≡ stood table.now place }
{
    match table.get(place as usize) {
        Some(leaners) => *leaners,
        None => Leaners::none(),
    }
}

/// These rows stand at the place, if there is such a place.
fn put_at(table: &mut [Leaners], place: u32, leaners: Leaners) -> bool
    ensures here { result ≡ true → stood table.new place ≡ leaners }
    ensures others { (k : ℕ) → k ≢ place → stood table.new k ≡ stood table.old k }
    ensures same { result ≡ false → table.new ≡ table.old }
{
    if place as usize >= table.len() {
        return false;
    }
    table[place as usize] = leaners;
    true
}

/// The row stands at the place, too, if there is such a place.
fn enter_at(table: &mut [Leaners], place: u32, row: u32) -> Entered
    requires row { row < 4294967295 }
    ensures there { result.done ≡ true → has (stood table.new place) row ≡ true }
    ensures others { (k r : ℕ) → has (stood table.old k) r ≡ true → r + 1 ≢ result.way → has (stood table.new k) r ≡ true }
    ensures way { result.way ≢ row + 1 }
{
    let joined = leaners_at(table, place).joined(row);
    if put_at(table, place, joined.leaners) {
        return Entered {
            done: true,
            way: joined.way,
        };
    }
    Entered {
        done: false,
        way: 0,
    }
}

/// The row doesn't stand at the place any more.
fn leave_at(table: &mut [Leaners], place: u32, row: u32)
    requires row { row < 4294967295 }
    ensures others { (k r : ℕ) → r ≢ row → has (stood table.old k) r ≡ true → has (stood table.new k) r ≡ true }
{
    let rest = leaners_at(table, place).without(row);
    let _ = put_at(table, place, rest);
}

/// How many places are wanted for one look of each row in each of so many layers.
fn places_for(rows: u32, layers: usize) -> usize {
    (rows as usize)
        .saturating_mul(layers)
        .saturating_mul(PLACES)
}

impl Spread {
    /// A table for one look of each row in each of so many layers, at which no row stands.
    pub fn open(
        alloc: Global,
        rows: u32,
        layers: usize,
        seed: &HashSeed,
    ) -> Result<Spread, NoMemory> {
        let mut spread = Spread {
            factors: Factors::of(seed),
            count: 0,
            table: Vec::new(alloc),
        };
        spread.reserve(rows, layers)?;
        spread.grow(rows, layers);
        Ok(spread)
    }

    /// Takes room for a table for one look of each row in each of so many layers.
    pub fn reserve(&mut self, rows: u32, layers: usize) -> Result<(), NoMemory>
        ensures same { self.new ≡ self.old }
    {
        let places = places_for(rows, layers);
        match self.table.reserve(places.saturating_sub(self.table.len())) {
            Ok(()) => Ok(()),
            Err(_) => Err(NoMemory),
        }
    }

    /// The table is for one look of each row in each of so many layers now, if it was for fewer and there is memory. No row
    /// that leans is known to stand then.
    pub fn grow(&mut self, rows: u32, layers: usize) {
        let places = places_for(rows, layers);
        if places <= self.table.len() {
            return;
        }
        if self.table.resize(places, Leaners::none()).is_ok() {
            self.count = u32::try_from(places).unwrap_or(u32::MAX);
        }
    }

    /// The rows that stand at a spot.
    pub fn at(&self, spot: &Spot) -> Leaners
        ensures { result ≡ leaners_in self.now spot.now }
    {
        leaners_at(&self.table, place_of(&self.factors, spot, self.count))
    }

    /// The row stands at the spot, too, unless the table has no place. Who gives way is told.
    pub fn enter(&mut self, spot: &Spot, row: u32) -> Entered
        requires row { row < 4294967295 }
        ensures there { result.done ≡ true → stands self.new spot.now row ≡ true }
        ensures others { (s : Spot) (r : ℕ) → stands self.old s r ≡ true → r + 1 ≢ result.way → stands self.new s r ≡ true }
        ensures way { result.way ≢ row + 1 }
    {
        let place = place_of(&self.factors, spot, self.count);
        enter_at(&mut self.table, place, row)
    }

    /// The row doesn't stand at the spot any more.
    pub fn leave(&mut self, spot: &Spot, row: u32)
        requires row { row < 4294967295 }
        ensures others { (s : Spot) (r : ℕ) → r ≢ row → stands self.old s r ≡ true → stands self.new s r ≡ true }
    {
        let place = place_of(&self.factors, spot, self.count);
        leave_at(&mut self.table, place, row);
    }
}
