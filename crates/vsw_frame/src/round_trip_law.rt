//! What holds of the bytes that are read, and of those that are written.

ghost use Rattle.vsw_frame.specs.Ends.{EndsAreUnread};
ghost use Rattle.vsw_frame.specs.RoundTrip.{IsByActs, ReadsDeeper, RoundTrip};
ghost use Rattle.vsw_frame.specs.Sums.{KeepEncapsulations, LevelsAreWritten, PushRight, StayRight, StayWrong};

/// Other bytes in slacks and trailers change nothing that is read of a frame.
///
/// What is written for a frame by a transposition that fits it is read as the edited stack, but
/// exactly where its innermost datagram looks like one more encapsulation. The inner checksums that
/// are right in a frame are right in what is written, and wrong ones wrong; kept encapsulations are as
/// they were but for their UDP checksum; and the IPv4 checksums of pushed ones are right.
pub fn round_trip_laws()
    ensures ends { EndsAreUnread }
    ensures by_acts { IsByActs }
    ensures round_trip { RoundTrip }
    ensures deeper { ReadsDeeper }
    ensures levels { LevelsAreWritten }
    ensures right { StayRight }
    ensures wrong { StayWrong }
    ensures kept { KeepEncapsulations }
    ensures pushed { PushRight }
{}
