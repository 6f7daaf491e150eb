//! States of a pair of flows (RFC 9293, section 3.3.2).

ghost use Rattle.std.specs.Prelude.{◌≡◌, ◌↔◌};
ghost use Rattle.vsw_base.specs.declared.flow.Track.TheVariants.{Closed};
ghost use Rattle.vsw_base.specs.declared.packet.Control.TheVariants.{Syn};
ghost use Rattle.vsw_layerflow.specs.Track.{opening_of, track_of};
ghost use Rattle.vsw_layerflow.specs.declared.tcp_state.Tracked.TheVariants.{Reopen};

use vsw_base::{Control, Dir, Track};

/// What becomes of a pair when a packet of it passes.
#[derive(Clone, Copy, Debug, PartialEq, Eq)]
pub enum Tracked {
    /// It is in this state.
    To(Track),
    /// It is taken away, and the packet is met as if the pair had never been.
    Reopen,
}

/// The state of a pair that a packet of unfragmented TCP makes, with this control and direction.
pub fn opening(control: Control, dir: Dir) -> Track
    ensures { result ≡ opening_of control dir }
{
    match control {
        Control::Syn => Track::Opening,
        Control::SynAck | Control::None => Track::Open,
        Control::Fin => Track::Half(dir),
        Control::Rst => Track::Closed,
    }
}

/// What becomes of a pair that is in the state `now` and was made by a packet of direction
/// `pair_dir`, when a packet of it passes in direction `dir`.
pub fn track(now: Track, pair_dir: Dir, control: Control, dir: Dir) -> Tracked
    ensures state { result ≡ track_of now pair_dir control dir }
    ensures reopened { (result ≡ Reopen) ↔ ((now ≡ Closed) × (control ≡ Syn)) }
{
    Tracked::To(match (now, control) {
        (Track::Closed, Control::Syn) => return Tracked::Reopen,
        (Track::Plain | Track::Closed, _) => now,
        (_, Control::Rst) => Track::Closed,
        (Track::Half(first), Control::Fin) if first != dir => Track::Closed,
        (Track::Half(_), _) => now,
        (_, Control::Fin) => Track::Half(dir),
        (Track::Opening, Control::SynAck) if dir != pair_dir => Track::Open,
        (Track::Opening | Track::Open, _) => now,
    })
}
