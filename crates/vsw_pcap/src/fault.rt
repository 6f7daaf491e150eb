//! Why a capture is refused.

ghost use Rattle.std.specs.Prelude.{◌≡◌};
ghost use Rattle.vsw_pcap.specs.Fault.{trace_number, trace_name};

/// Why bytes aren't a capture that the switch reads. The header's tests are made in this order.
#[derive(Clone, Copy, Debug, PartialEq, Eq)]
pub enum BadTrace {
    /// Fewer than 24 bytes for the header, or none of the four magics.
    NotPcap,
    /// The version isn't 2.4.
    Version,
    /// The link type isn't 1, Ethernet.
    LinkType,
    /// The capture ends within the record that begins at byte `at`.
    Cut { at: u64 },
    /// The record that begins at byte `at` has a captured length above 262,144 bytes. Its 16 bytes
    /// of header alone tell it, so it goes before `Cut`.
    Huge { at: u64 },
}

impl BadTrace {
    /// The fault's number in the table of docs/FORMATS.md.
    pub fn number(self) -> u8
        ensures { result ≡ trace_number self }
    {
        match self {
            BadTrace::NotPcap => 1,
            BadTrace::Version => 2,
            BadTrace::LinkType => 3,
            BadTrace::Cut { .. } => 4,
            BadTrace::Huge { .. } => 5,
        }
    }

    /// The fault's name in the table of docs/FORMATS.md.
    pub fn name(self) -> &'static str
        ensures { result.now ≡ trace_name self }
    {
        match self {
            BadTrace::NotPcap => "NotPcap",
            BadTrace::Version => "Version",
            BadTrace::LinkType => "LinkType",
            BadTrace::Cut { .. } => "Cut",
            BadTrace::Huge { .. } => "Huge",
        }
    }
}
