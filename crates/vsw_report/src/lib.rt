//! The report: its values, its text, written into a room that lives on; the lines of many callers, merged into its order; and the law that this text is read back.
#![tactic(auto)]

mod block;
mod law;
mod line;
mod lines;
mod marks;
mod merging;
mod merging_law;
mod page;
mod piece;
mod print;
mod round;
mod sheets;
mod text;
mod told;

pub use law::laws;
pub use line::{put, put_hex, put_piece};
pub use lines::Caller;
pub use merging::{merge, merge_text};
pub use merging_law::merging_laws;
pub use page::Page;
pub use print::{HEAD_LINE, loose_part, port_line, print_round, round_line};
pub use round::{Loose, LooseCause, PortRound, Round};
pub use sheets::{RoundText, Sheets};
pub use text::{append_hex, write_hex};
pub use told::{By, ToldLine, What};
