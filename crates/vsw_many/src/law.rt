//! What holds of passes, callers, ports, rounds and runs.

ghost use Rattle.vsw_many.specs.Law.{ActorBegins, ActorEnds, ActorGoesOn, AllIsDealt, DealIsPlaced, LockedCallsCross, LockedMeets, OrderIsFree, PortIsRound, RunIsTold, TurnGoesOn, WorksBegin, WorksGoOn, WorksSettle, WorksStay};

/// One more call adds to what a pass did. When the pass has met the port, that is its caller's share.
pub fn pass_laws()
    ensures begin { WorksBegin }
    ensures works { WorksGoOn }
    ensures learns { WorksStay }
    ensures share { WorksSettle }
    ensures turn { TurnGoesOn }
{}

/// A call at the end of a history that one owner keeps is what a pass promises, and so is its meeting.
pub fn lock_laws()
    ensures crosses { LockedCallsCross }
    ensures meets { LockedMeets }
{}

/// A round of a port that is done in phases is one as a report tells it.
pub fn port_laws()
    ensures round { PortIsRound }
    ensures order { OrderIsFree }
{}

/// Each caller is dealt its own of a round's jobs, which are at each port what it has to do there.
pub fn deal_laws()
    ensures placed { DealIsPlaced }
    ensures dealt { AllIsDealt }
{}

/// An actor that does its jobs one after the other has done its own of a round when its passes have met the ports.
pub fn actor_laws()
    ensures begins { ActorBegins }
    ensures goes_on { ActorGoesOn }
    ensures ends { ActorEnds }
{}

/// What 1 to 16 workers and the controllers did, round after round, is told as the rounds of the run.
pub fn run_laws()
    ensures run { RunIsTold }
{}
