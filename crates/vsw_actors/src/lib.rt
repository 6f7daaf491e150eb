//! Callers of a round as actors: the jobs that each is dealt, done one after the other beside the others.
#![tactic(auto)]

mod actor;
mod aim;
mod going;
mod handed;
mod hop;
mod lane;
mod law;
mod numbering;
mod pick;
mod place;
mod port;
mod reconciler;
mod round;
mod rows;
mod seat;
mod share;
mod work;

pub use actor::{Actor, Begun, Placed, step_in};
pub use going::carry_on;
pub use handed::{Given, Handed, hand_over};
pub use lane::{Lane, step, step_at};
pub use law::actor_laws;
pub use pick::{Pick, deal_picks, jobs_of, no_picks};
pub use port::Port;
pub use reconciler::{RowPort, reconcile_rows};
pub use round::Lineup;
pub use rows::run_rows;
pub use share::deal;
pub use work::{Packet, Work};
