//! What a crossing tells of its frame.

ghost use Rattle.vsw_port.specs.AdmissionLaw.{IsFollowed, IsLongAlike, IsSized};

/// A packet is long exactly where its outgoing bytes can't be written, and what leaves has as many bytes
/// as the sizes tell. The stack that a walk makes is one that the bytes can follow.
pub fn admission_laws()
    ensures long { IsLongAlike }
    ensures sized { IsSized }
    ensures followed { IsFollowed }
{}
