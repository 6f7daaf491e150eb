//! A reader of captures of libpcap's classic file format, version 2.4, which takes their bytes in
//! pieces and gives their records one by one.
#![tactic(auto)]

mod batch;
mod capture;
mod cutting;
mod fault;
mod reader;

pub use batch::{Batch, Captured, Found};
pub use capture::Record;
pub use cutting::cuttings_agree;
pub use fault::BadTrace;
pub use reader::{Next, Reader};
