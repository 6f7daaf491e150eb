//! What holds of ways, of looks and of rows.

ghost use Rattle.vsw_rows.specs.LeanLaw.{CrossingStays, LateShakes, LooksRight, MomentUnseen, QuietUntil, RowAnswers, RowsStay, WalkMakes, WayStays};

/// Packets of one identity that have no control go one way, at whatever moment they come. Changes that shake
/// none of their looks leave this way. So a crossing that shakes no row leaves every good row good. The row
/// of a walk is good. A good row answers as the crossing does, and up to its until that changes nothing; a
/// packet that passes later shakes the row.
pub fn lean_laws()
    ensures moment { MomentUnseen }
    ensures right { LooksRight }
    ensures way { WayStays }
    ensures rows { RowsStay }
    ensures crossing { CrossingStays }
    ensures makes { WalkMakes }
    ensures late { LateShakes }
    ensures answers { RowAnswers }
    ensures quiet { QuietUntil }
{}
