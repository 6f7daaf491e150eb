//! The looks on which one row leans, in a room that is kept when the row is put again.

ghost use Rattle.std.specs.Prelude.{◌≡◌, ◌≢◌, [], ℕ, map, true, IfSome};
ghost use Rattle.vsw_flows.specs.Gists.{gist_of};
ghost use Rattle.vsw_flows.specs.Leant.{kept_at};

use crate::gists::{Gist, Gists, gists_of};
use std::alloc::Global;
use std::marker::Model;
use vsw_walk::Looked;

/// What the packets of a row look for.
#[derive(Drop)]
pub struct Looks {
    items: Vec<Looked>,
    /// What stands near of them, where they are few.
    gists: Option<Gists>,
}

impl Model for Looks {
    ghost use Rattle.std.specs.Prelude.{◌≡◌, List, map, IfSome};
    ghost use Rattle.vsw_flows.specs.Gists.{gist_of};
    ghost use Rattle.vsw_walk.specs.declared.scratch.Looked.{Looked};

    ghost Value = { List Looked };

    ghost view = { λ s. s.items.items };

    ghost invariant = { λ s. IfSome s.gists (λ gists. gists ≡ map gist_of s.items.items) };
}

impl Looks {
    /// None. It takes no memory.
    pub fn new(alloc: Global) -> Looks
        ensures { result ≡ [] }
    {
        Looks {
            items: Vec::new(alloc),
            gists: None,
        }
    }

    pub fn as_slice(&self) -> &[Looked]
        ensures { result.now ≡ self.now }
    {
        &self.items
    }

    /// What stands near of them, where they are few.
    pub fn gists(&self) -> Option<&[Gist]>
        ensures { IfSome result (λ gists. gists.now ≡ map gist_of self.now) }
    {
        match &self.gists {
            Some(gists) => Some(gists.as_slice()),
            None => None,
        }
    }

    /// None any more. The room stays.
    pub fn clear(&mut self) {
        self.gists = None;
        self.items.clear();
    }

    /// They are these, unless memory is wanting.
    pub fn set(&mut self, looks: &[Looked]) -> bool
        ensures { result ≡ true → self.new ≡ looks.now }
    {
        self.gists = None;
        self.items.clear();
        if self.items.extend_from_slice(looks).is_err() {
            return false;
        }
        self.gists = gists_of(looks);
        true
    }
}

/// The looks of the row at a place.
pub fn looks_at(kept: &[Looks], row: u32) -> &[Looked]
    ensures { result.now ≡ kept_at kept.now row }
{
    match kept.get(row as usize) {
        Some(looks) => looks.as_slice(),
        None => &[],
    }
}

/// What stands near of the looks of the row at a place, where they are few.
pub fn gists_at(kept: &[Looks], row: u32) -> Option<&[Gist]>
    ensures { IfSome result (λ gists. gists.now ≡ map gist_of (kept_at kept.now row)) }
{
    match kept.get(row as usize) {
        Some(looks) => looks.gists(),
        None => None,
    }
}

/// The row at a place has these looks, unless memory is wanting.
pub fn set_looks(kept: &mut Vec<Looks>, row: u32, looks: &[Looked]) -> bool
    ensures here { result ≡ true → kept_at kept.new.items row ≡ looks.now }
    ensures others { (place : ℕ) → place ≢ row → kept_at kept.new.items place ≡ kept_at kept.old.items place }
{
    if row as usize >= kept.len() {
        return false;
    }
    kept[row as usize].set(looks)
}

/// The row at a place has no looks any more.
pub fn drop_looks(kept: &mut [Looks], row: u32)
    ensures others { (place : ℕ) → place ≢ row → kept_at kept.new place ≡ kept_at kept.old place }
{
    if (row as usize) < kept.len() {
        kept[row as usize].clear();
    }
}
