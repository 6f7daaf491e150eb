//! The algebra of composing.

ghost use Rattle.vsw_rule.specs.ComposeLaw.{Associates, KeepsAlong, NoneFirst, NoneLast};

/// Composing with the transposition that does nothing, on either side, changes nothing in what is done,
/// and composing is associative in what it does. Actions keep along: composed with the action of a
/// further layer, what was kept of a frame's encapsulations shrinks as the action says.
pub fn composition_laws()
    ensures none_first { NoneFirst }
    ensures none_last { NoneLast }
    ensures associates { Associates }
    ensures kept { KeepsAlong }
{}
