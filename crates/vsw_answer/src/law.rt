//! What a packet's sizes tell.

ghost use Rattle.vsw_answer.specs.Fate.{Measures};

/// A packet's fate is told by its crossing alone, whatever its frame's bytes.
pub fn laws()
    ensures measures { Measures }
{}
