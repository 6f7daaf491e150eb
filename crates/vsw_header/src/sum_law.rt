//! What holds of checksums.

ghost use Rattle.vsw_header.specs.Update.{IgnoresSame, KeepsUnchanged, StaysRight, StaysWritten, WasRight};
ghost use Rattle.vsw_header.specs.Sum.{Checks};

/// A receiver's sum over words with their checksum among them is all ones; a right checksum stays
/// right by an update, also as UDP writes it, and a wrong one wrong, but for which of the two zeros
/// stands there; and words that stay the same may be left out of the update.
pub fn sum_laws()
    ensures checks { Checks }
    ensures right { StaysRight }
    ensures written { StaysWritten }
    ensures wrong { WasRight }
    ensures unchanged { KeepsUnchanged }
    ensures same { IgnoresSame }
{}
