//! What holds of keys, sums and ports.

ghost use Rattle.vsw_header.specs.Mirror.{IsStill, KeysMirror, SumsAlike, SwapsAlike, MirrorsBack};
ghost use Rattle.vsw_header.specs.PortChoice.{MeetsNone, OutWins};

/// The mirrored stack is a stack, its key is the mirror of the key, its flow sum is the flow sum, and
/// its mirror is the stack. The flow sum is also the same where inner IPv4 or IPv6 addresses and ports alone
/// are exchanged. No port is found exactly where neither address is a port's, and a packet is outbound exactly
/// where its outermost source address is one.
pub fn flow_laws()
    ensures shape { IsStill }
    ensures key { KeysMirror }
    ensures sum { SumsAlike }
    ensures swap { SwapsAlike }
    ensures back { MirrorsBack }
    ensures none { MeetsNone }
    ensures out { OutWins }
{}
