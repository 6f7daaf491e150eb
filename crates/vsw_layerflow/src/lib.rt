//! The pairs of a layer: flows that a stateful rule let through, each with its reply, and the states of their TCP connections.
#![tactic(auto)]

pub mod flows;
mod maps;
pub mod pair;
mod point;
mod seed;
mod tcp_law;
mod tcp_state;

pub use flows::Flows;
pub use pair::{Pair, Probe, due, life};
pub use point::PointHasher;
pub use seed::{HashSeed, Seeded};
pub use tcp_law::tcp_laws;
pub use tcp_state::{Tracked, opening, track};
