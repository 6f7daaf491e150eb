//! The ports of a run and the rows of all its callers: opened before the first round, met between rounds, and asked the commands before the packets.
#![tactic(auto)]

mod before;
mod harbour;
mod lists;
mod meeting;
mod opening;
mod place;
mod row;

pub use before::{ask_before, ask_each};
pub use harbour::Harbour;
pub use meeting::{meet_again, meet_all};
pub use opening::OpenHarbour;
pub use place::place_of;
pub use row::step;
pub use vsw_dock::{
    Answer, Dock, Lane, Lineup, Naming, OpenDocks, OpenPort, Placed, Station, Watch, Why, Work,
    deal, dock_all, name_all, open_ports, rows_of, run_rows,
};
