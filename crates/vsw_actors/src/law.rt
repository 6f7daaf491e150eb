//! What holds of an actor whose passes have met the ports.

ghost use Rattle.vsw_actors.specs.Ends.{ActorsEnd};

use crate::port::Port;

/// An actor whose passes have met the ports has done its jobs of the round.
pub fn actor_laws<J, P: Port<J>>()
    ensures ends { ActorsEnd P.port_in P.locals P.pass_in P.job_in P.tells }
{}
