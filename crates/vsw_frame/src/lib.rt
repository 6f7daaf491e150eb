//! Whole frames: read, changed in place, written with the bytes that an edited stack gives, and laws of frames that are read again.
#![tactic(auto)]

mod change;
mod differing;
mod examples;
mod found;
mod frame;
mod in_place;
mod kept;
mod law;
mod levels;
mod numbers;
mod opened;
mod own;
mod push;
mod read;
mod rewriting;
mod round_trip_law;
mod writing;

pub use differing::differ;
pub use examples::vectors;
pub use frame::{Frame, FrameRoom};
pub use in_place::change_frame;
pub use kept::{change_udp_vxlan, udp_at};
pub use law::laws;
pub use numbers::numbers_fit;
pub use own::own_bytes;
pub use push::{ENCAP_LEN, write_encaps};
pub use read::read_frame;
pub use rewriting::rewrite_bytes;
pub use round_trip_law::round_trip_laws;
pub use writing::{rewrite, rewrite_to};
