//! What holds of visits, and of the pairs that they want.

ghost use Rattle.vsw_walk.specs.VisitLaw.{TurnsBack, HoldsBoth, StopsDrop};

/// A wanted pair's reverse set, written into a reply, turns its key into the mirror of the forward key.
/// The pair holds the packet's direction and key, and the other direction and its reverse key. A layer
/// that stops a packet drops it, by a rule or by its default.
pub fn visit_laws()
    ensures back { TurnsBack }
    ensures holds { HoldsBoth }
    ensures drops { StopsDrop }
{}
