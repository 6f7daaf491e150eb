//! What holds of the header's bytes.

ghost use Rattle.vsw_header.specs.Ip.{Checks, ReadsBack};
ghost use Rattle.vsw_header.specs.IpRight.{StaysRight, StaysWrong};

/// The reader gives back what the writer was given, and the checksum is right. One that is right for
/// a header is right for the changed one; one that is wrong stays wrong.
pub fn ip_laws()
    ensures reads_back { ReadsBack }
    ensures checks { Checks }
    ensures right { StaysRight }
    ensures wrong { StaysWrong }
{}
