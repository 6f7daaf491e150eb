//! What holds of the order of a port's lines.

ghost use Rattle.vsw_report.specs.MergingLaw.{OneCallerInOrder};

/// The lines of one caller, in its order, are in the order of the report.
pub fn merging_laws()
    ensures one { OneCallerInOrder }
{}
