//! A port's layers and its history under one owner: what a packet wants of the layers is judged and done at once or not at all, and each call is entered.
#![tactic(auto)]

mod admission_law;
mod changing;
mod commit_law;
mod committing;
mod copies;
mod crossing;
mod event;
mod judging;
mod law;
mod ledger;
mod length;
mod order;
mod owner;
mod room;
mod stop;
mod wanting;

pub use admission_law::admission_laws;
pub use commit_law::commit_laws;
pub use committing::commit;
pub use crossing::Outcome;
pub use event::Event;
pub use judging::judge;
pub use law::{call_laws, samples};
pub use ledger::Ledger;
pub use length::{is_long, outgoing_size};
pub use order::ascending;
pub use owner::Core;
pub use stop::Stop;
pub use vsw_walk::{Scratch, Walked, Wanted};
