//! What holds of every commands file that is read.

ghost use Rattle.vsw_commandfile.specs.Good.{EachIsGood, EachIsCut, FirstIsOld};

/// What each line asks may be asked, and lines stand in their order; together, the lines of any bytes
/// are these bytes. Beside a policy of version 1, no line may do what version 2 adds.
pub fn laws()
    ensures good { EachIsGood }
    ensures cut { EachIsCut }
    ensures version { FirstIsOld }
{}
