//! A crew: the workers and the controllers of a run, each in a thread of its own, round by round, and the text that tells of each round.
#![tactic(auto)]

mod before;
mod beside;
mod caller_lines;
mod crew;
mod feeding;
mod lines;
mod owed;
mod picked;
mod port;
mod ports;
mod round;
mod round_text;
mod share;
mod shift;
mod stream_share;
mod stream_shift;
mod streaming;
mod telling;
mod underway;

pub use caller_lines::Lines;
pub use crew::Crew;
pub use feeding::Feeding;
pub use owed::Owed;
pub use picked::Picked;
pub use round_text::tell_round;
pub use share::{Carried, Carrier, Share};
pub use stream_share::{Frames, StreamCarried, StreamCarrier, StreamShare, Streamed};
pub use underway::Underway;
pub use vsw_harbour::{Answer, Naming, Watch, Why};
pub use vsw_switch::{Switch, Tally, run_round};
