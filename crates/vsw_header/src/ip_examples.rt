//! Headers whose checksums were found by hand.

ghost use Rattle.vsw_header.specs.IpVectors.{PlainIsRight, OptionsAreRight};

/// The definition of a right checksum says so of a header without options and of one with them.
pub fn ip_vectors()
    ensures plain { PlainIsRight }
    ensures options { OptionsAreRight }
{}
