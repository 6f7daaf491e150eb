//! What holds of crossings.

ghost use Rattle.vsw_port.specs.CommitLaw.{ChangesTell};

/// A packet changes something exactly where the layers are others after it.
pub fn commit_laws()
    ensures { ChangesTell }
{}
