//! Reports that were worked out by hand, beside the definitions of vsw_promise, each evaluated where it is proved; tests of ports, of the order
//! of commands, and of the report's text; of actors, over ports that have memory for no command; of rings; and of hands in threads that stay.
#![tactic(auto)]

mod adding;
mod carrying;
#[cfg(test)]
mod handing_tests;
#[cfg(test)]
mod hands_tests;
#[cfg(test)]
mod hex_tests;
#[cfg(test)]
mod job_tests;
#[cfg(test)]
mod line_tests;
#[cfg(test)]
mod order_tests;
#[cfg(test)]
mod pick_tests;
#[cfg(test)]
mod ports_samples;
#[cfg(test)]
mod ports_tests;
mod refusing;
#[cfg(test)]
mod report_samples;
#[cfg(test)]
mod ring_tests;
#[cfg(test)]
mod round_tests;
mod samples;
#[cfg(test)]
mod schedule_tests;
#[cfg(test)]
mod workers_tests;

pub use adding::{Adding, Counting, Part, Sum};
pub use carrying::{Load, Packet};
pub use refusing::{Notes, Refusing};
pub use samples::{commands, life, packets, replies};
