//! What holds of the states.

ghost use Rattle.vsw_layerflow.specs.Track.{StaysClosed, StaysPlain, StaysUncontrolled};

/// Nothing but a re-opening leads away from a closed pair, and nothing leads to or from a pair that
/// isn't of unfragmented TCP. A packet without a control leaves each pair in its state.
pub fn tcp_laws()
    ensures closed { StaysClosed }
    ensures plain { StaysPlain }
    ensures uncontrolled { StaysUncontrolled }
{}
