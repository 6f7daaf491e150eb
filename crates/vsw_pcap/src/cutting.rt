//! How a capture is cut into pieces shows in no answer.

ghost use Rattle.vsw_pcap.specs.Cutting.{RunsRead, EachIsACapture, CapturesAreUnique, CuttingsAgree};

/// The laws of a reader over any list of calls. There is nothing to do: its contract is what it is for.
pub fn cuttings_agree()
    ensures reads { RunsRead }
    ensures each { EachIsACapture }
    ensures unique { CapturesAreUnique }
    ensures agree { CuttingsAgree }
{}
