//! A packet's walk over the layers of a port: what each layer makes of it, and the crossing of all.
#![tactic(auto)]

mod composing;
mod deciding;
mod known;
mod law;
mod outcome;
mod scratch;
mod slots;
mod turns;
mod visit_law;
mod visiting;
mod walking;
mod wanted;

pub use deciding::decide;
pub use known::{last_use, set_towards};
pub use law::laws;
pub use outcome::{Decision, Visit, Want};
pub use scratch::{Looked, Scratch, Wanted};
pub use visit_law::visit_laws;
pub use visiting::visit;
pub use walking::{Walked, walk};
pub use wanted::{reverse_set, set_of, wanted_pair};
