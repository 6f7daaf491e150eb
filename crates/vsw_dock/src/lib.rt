//! Ports for threads as actors take them: each caller has a station at each port, and all meet the ports between rounds.
#![tactic(auto)]

mod dock;
mod handing;
mod law;
mod meeting;
mod opening;
mod parcel;
mod station;

pub use dock::Dock;
pub use law::laws;
pub use meeting::{count_of, hold_all, meet_row};
pub use opening::{OpenDocks, dock_all, open_ports, rows_of};
pub use parcel::Parcel;
pub use station::Station;
pub use vsw_actors::{Lane, Lineup, Placed, Work, deal, run_rows, step_at};
pub use vsw_answer::{Answer, Watch, Why};
pub use vsw_live::{Held, Naming, OpenPort, name_all};
