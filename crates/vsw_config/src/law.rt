//! What holds of every policy file that is read.

ghost use Rattle.vsw_config.specs.Good.{EachIsGood};
ghost use Rattle.vsw_config.specs.Version.{FirstIsOld};

/// Of every policy that is read, counts, rows and the numbers of layers are within the limits, what is
/// named by a number is named by one of its own, each layer's controller is listed, and each rule may be
/// so. A file of version 1 has no name that version 2 adds.
pub fn laws()
    ensures good { EachIsGood }
    ensures version { FirstIsOld }
{}
