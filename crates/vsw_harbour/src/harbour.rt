//! What does not change in a run.

use std::alloc::Global;
use std::marker::Model;
use vsw_base::{Items, Mac};
use vsw_dock::{Dock, Naming};

/// The workers, the ports and the controllers of a run.
#[derive(Drop)]
pub struct Harbour<'g, J: Naming, G> {
    pub alloc: Global,
    pub workers: u32,
    /// In the policy's order, as their numbers and addresses.
    pub docks: Vec<Dock<'g, J, G>>,
    pub numbers: Vec<u16>,
    pub macs: Items<Mac>,
    /// The controllers in the policy's order, and by their numbers.
    pub controllers: Vec<u16>,
    pub listed: Vec<u16>,
    /// By callers, how many entries each may make where it asks before the packets.
    pub asks: Vec<u32>,
    pub gate: &'g G,
}

impl<'g, J: Naming, G> Model for Harbour<'g, J, G> {
    ghost use Rattle.vsw_harbour.specs.Harbour.{HarbourSeen, IsHarbour};

    ghost Value = { HarbourSeen };

    ghost view = { λ h. record { workers = h.workers; docks = h.docks.items; controllers = h.controllers.items } };

    ghost invariant = { λ h. IsHarbour (record { workers = h.workers; docks = h.docks.items; controllers = h.controllers.items }) h.numbers.items h.macs h.listed.items h.asks.items };
}
