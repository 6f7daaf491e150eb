//! Packets answered by rows without the lock, the frames of packets that pass, and what is told of an answer.
#![tactic(auto)]

mod answer;
mod desk;
mod guess;
mod law;
mod outcome;
mod passing;
mod room;
mod told;

pub use answer::{RowAnswer, answer_by_row};
pub use desk::Desk;
pub use guess::touch_row;
pub use law::laws;
pub use passing::{bytes_of, leave};
pub use room::Room;
pub use told::{Answer, Watch, Why};
