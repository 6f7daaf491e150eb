//! What holds of callers that hand packets on.

ghost use Rattle.vsw_hairpin.specs.Exist.{RoundsAreThere, RoundsGoOn};
ghost use Rattle.vsw_hairpin.specs.Law.{RowsHandOn, TurnsHandOn};

/// Callers that bring a packet to its next port at once, reading off their own answer whether it has one, have done what the round's own
/// lines ask for.
pub fn handing_laws()
    ensures rows { RowsHandOn }
    ensures turns { TurnsHandOn }
{}

/// There are rounds of 1 to 16 workers for every policy, commands and trace, also where packets are handed on, and after whatever histories.
pub fn existence_laws()
    ensures on { RoundsGoOn }
    ensures there { RoundsAreThere }
{}
