//! What holds of all frames.

ghost use Rattle.vsw_frame.specs.Differs.{DifferTells};

/// An inner field differs exactly where the inner headers aren't the same.
pub fn laws()
    ensures differ { DifferTells }
{}
