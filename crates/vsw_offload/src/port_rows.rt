//! The rows of one port.

use vsw_base::{Items, Mac};

/// The rows of one port, as its table has them or as a file does.
#[derive(Drop)]
pub struct PortRows {
    /// The port's number.
    pub port: u32,
    pub mac: Mac,
    /// Entries of the history after which the rows are good.
    pub entries: u32,
    /// The words of each row: sixteen of a key, then 57 of a body.
    pub rows: Items<[u64; 73]>,
}
