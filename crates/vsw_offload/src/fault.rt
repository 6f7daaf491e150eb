//! Why bytes are no rows file.

/// Why bytes are no rows file, in the order in which they are read. `at` is the byte, counted from 0, at which the part begins that is
/// at fault.
#[derive(Clone, Copy, Debug, PartialEq, Eq)]
pub enum BadRows {
    /// The first eight bytes are others, or fewer.
    NotRows,
    /// A number, an address or a row isn't whole.
    Cut { at: u64 },
    /// More than 16 ports.
    ManyPorts { at: u64 },
    /// A port's number or its address stands already.
    PortTwice { at: u64 },
    /// More than 16,384 rows of a port.
    ManyRows { at: u64 },
    /// The words say no row, or one whose packets pass with acts that don't fit their headers.
    BadRow { at: u64 },
    /// The key isn't above that of the row before.
    Order { at: u64 },
    /// Bytes follow the last port.
    Extra { at: u64 },
    /// There was no memory for the rows.
    Memory,
}
