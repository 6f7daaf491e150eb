//! A round whose shares are out.

use crate::Lines;
use vsw_harbour::{Lane, Station};
use vsw_report::Loose;

/// A round of which the workers' shares are out.
#[derive(Drop)]
pub struct Underway {
    /// The number of its first packet.
    pub(crate) first: u32,
    /// How many entries each port had before it.
    pub(crate) befores: Vec<u32>,
    /// What the controllers tell of the commands before the packets.
    pub(crate) firsts: Vec<Lines>,
    pub(crate) loose: Vec<Loose>,
    /// The rows of all callers. In the places of those that are out there are none.
    pub(crate) rows: Vec<Vec<Lane<Station>>>,
}
