//! Whole reports.

ghost use Rattle.vsw_round_tests.specs.Commands.{EndsEarly, PastTheEnd, RefusedCommands};
ghost use Rattle.vsw_round_tests.specs.Life.{LifeOfAPair};
ghost use Rattle.vsw_round_tests.specs.OnePacket.{NoPacket, OnePacket};
ghost use Rattle.vsw_round_tests.specs.Replies.{Replies};

/// One packet, and none.
pub fn packets()
    ensures one { OnePacket }
    ensures none { NoPacket }
{}

/// A packet that is rewritten and encapsulated, and its reply.
pub fn replies()
    ensures found { Replies }
{}

/// A TCP connection whose pair is closed, swept away and made again.
pub fn life()
    ensures swept { LifeOfAPair }
{}

/// Commands that are obeyed and refused, and commands past the end of a trace.
pub fn commands()
    ensures refused { RefusedCommands }
    ensures late { PastTheEnd }
    ensures early { EndsEarly }
{}
