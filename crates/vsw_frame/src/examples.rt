//! Frames that were rewritten by hand.

ghost use Rattle.vsw_frame.specs.Vectors.{ReadsInside, ReadsPlain, ReadsPlainSix, WritesAnswer, WritesEncapsulated, WritesSixAnswer, WritesSixPort, WritesSixSource};

/// The definitions say of frames that were rewritten by hand what was written, and of some whose
/// payload looks like an encapsulation what is read.
pub fn vectors()
    ensures encapsulated { WritesEncapsulated }
    ensures answer { WritesAnswer }
    ensures six_port { WritesSixPort }
    ensures six_answer { WritesSixAnswer }
    ensures six_source { WritesSixSource }
    ensures plain { ReadsPlain }
    ensures inside { ReadsInside }
    ensures plain_six { ReadsPlainSix }
{}
