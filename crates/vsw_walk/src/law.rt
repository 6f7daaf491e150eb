//! What holds of walks.

ghost use Rattle.vsw_walk.specs.Law.{PassesFreely, Unseen};

/// Where there are no layers a packet passes as it came. A walk doesn't see who brings the packet, which
/// number it has in the trace, and how long it is.
pub fn laws()
    ensures free { PassesFreely }
    ensures unseen { Unseen }
{}
