//! What the rows of a port lean on: at each spot the rows that stand there, and of each row its looks.

ghost use Rattle.std.specs.Prelude.{◌≡◌, ◌≢◌, ◌<◌, ◌+◌, ℕ, map, true, IfSome};
ghost use Rattle.vsw_flows.specs.Gists.{gist_of};
ghost use Rattle.vsw_flows.specs.Leant.{kept_at};
ghost use Rattle.vsw_flows.specs.declared.spot.Spot.{Spot};
ghost use Rattle.vsw_flows.specs.Spots.{SpreadSeen, leaners_in, spot_of, stands};

use crate::gists::Gist;
use crate::leaners::Leaners;
use crate::looks::{Looks, drop_looks, gists_at, looks_at, set_looks};
use crate::spot::{Spot, spot_of};
use crate::spread::{Entered, Spread};
use std::alloc::Global;
use std::marker::Model;
use vsw_base::NoMemory;
use vsw_layerflow::HashSeed;
use vsw_walk::Looked;

/// At each spot the rows that stand there, and of each row its looks. A row may be told at a spot on which it leans no
/// more: it then falls without need, which costs a walk. One that isn't told where it leans would outlive a change.
#[derive(Drop)]
pub struct Leaning {
    spots: Spread,
    kept: Vec<Looks>,
}

impl Model for Leaning {
    ghost use Rattle.vsw_flows.specs.Leant.{Leant};

    ghost Value = { Leant };

    ghost view = { λ s. record { spots = s.spots; kept = s.kept.items } };
}

/// The row leaves the spots of these looks.
fn leave_all(spots: &mut Spread, row: u32, looks: &[Looked])
    requires row { row < 4294967295 }
    ensures others { (s : Spot) (r : ℕ) → r ≢ row → stands spots.old s r ≡ true → stands spots.new s r ≡ true }
{
    let Some((look, rest)) = looks.split_first() else {
        return;
    };
    spots.leave(&spot_of(look), row);
    leave_all(spots, row, rest);
}

/// A room for the looks of each of so many rows.
fn no_looks(alloc: Global, rows: u32) -> Result<Vec<Looks>, NoMemory> {
    let mut kept = Vec::new(alloc);
    for _ in 0..rows {
        if kept.push(Looks::new(alloc)).is_err() {
            return Err(NoMemory);
        }
    }
    Ok(kept)
}

impl Leaning {
    /// Nothing is leant on. There is room for one look of each row in each of so many layers; the seed tells where rows stand.
    pub fn open(
        alloc: Global,
        rows: u32,
        layers: usize,
        seed: &HashSeed,
    ) -> Result<Leaning, NoMemory> {
        Ok(Leaning {
            spots: Spread::open(alloc, rows, layers, seed)?,
            kept: no_looks(alloc, rows)?,
        })
    }

    /// Takes room for one look of each row in each of so many layers.
    pub fn reserve(&mut self, rows: u32, layers: usize) -> Result<(), NoMemory>
        ensures same { self.new ≡ self.old }
    {
        self.spots.reserve(rows, layers)
    }

    /// The room is used from now on for one look of each row in each of so many layers. No row that leans is known to stand then.
    pub fn grow(&mut self, rows: u32, layers: usize)
        ensures kept { self.new.kept ≡ self.old.kept }
    {
        self.spots.grow(rows, layers);
    }

    /// The rows that stand at a spot.
    pub fn at(&self, spot: &Spot) -> Leaners
        ensures { result ≡ leaners_in self.now.spots spot.now }
    {
        self.spots.at(spot)
    }

    /// The looks of a row.
    pub fn looks_of(&self, row: u32) -> &[Looked]
        ensures { result.now ≡ kept_at self.now.kept row }
    {
        looks_at(&self.kept, row)
    }

    /// What stands near of the looks of a row, where they are few.
    pub fn gists_of(&self, row: u32) -> Option<&[Gist]>
        ensures { IfSome result (λ gists. gists.now ≡ map gist_of (kept_at self.now.kept row)) }
    {
        gists_at(&self.kept, row)
    }

    /// The looks of a row are these, unless memory is wanting.
    pub fn keep(&mut self, row: u32, looks: &[Looked]) -> bool
        ensures here { result ≡ true → kept_at self.new.kept row ≡ looks.now }
        ensures others { (place : ℕ) → place ≢ row → kept_at self.new.kept place ≡ kept_at self.old.kept place }
        ensures spots { self.new.spots ≡ self.old.spots }
    {
        set_looks(&mut self.kept, row, looks)
    }

    /// Nothing is kept of the looks of a row any more.
    pub fn forget(&mut self, row: u32)
        ensures others { (place : ℕ) → place ≢ row → kept_at self.new.kept place ≡ kept_at self.old.kept place }
        ensures spots { self.new.spots ≡ self.old.spots }
    {
        drop_looks(&mut self.kept, row);
    }

    /// The row stands at the spot of the look, too, unless there is no place for it (`Spread::enter`).
    pub fn enter(&mut self, row: u32, look: &Looked) -> Entered
        requires row { row < 4294967295 }
        ensures there { result.done ≡ true → stands self.new.spots (spot_of look.now) row ≡ true }
        ensures others { (s : Spot) (r : ℕ) → stands self.old.spots s r ≡ true → r + 1 ≢ result.way → stands self.new.spots s r ≡ true }
        ensures way { result.way ≢ row + 1 }
        ensures kept { self.new.kept ≡ self.old.kept }
    {
        self.spots.enter(&spot_of(look), row)
    }

    /// The row leaves the spots of its looks.
    pub fn leave(&mut self, row: u32)
        requires row { row < 4294967295 }
        ensures others { (s : Spot) (r : ℕ) → r ≢ row → stands self.old.spots s r ≡ true → stands self.new.spots s r ≡ true }
        ensures kept { self.new.kept ≡ self.old.kept }
    {
        leave_all(&mut self.spots, row, looks_at(&self.kept, row));
    }
}
