//! A packet and its frame.

ghost use Rattle.std.specs.Prelude.{◌≡◌};
ghost use Rattle.vsw_frame.specs.Frame.{parts};
ghost use Rattle.vsw_answer.specs.Transit.{IsOfFrame};

use std::marker::Model;
use vsw_base::Crossing;
use vsw_frame::Frame;

/// A packet, with the frame that it is of.
#[derive(Drop)]
pub struct Unit<'a> {
    pub(crate) crossing: &'a Crossing,
    pub(crate) frame: &'a Frame<'a>,
}

impl<'a> Model for Unit<'a> {
    ghost use Rattle.vsw_frame.specs.Frame.{parts};
    ghost use Rattle.vsw_live.specs.Seen.{UnitSeen};
    ghost use Rattle.vsw_answer.specs.Transit.{IsOfFrame};

    ghost Value = { UnitSeen };

    ghost view = { λ u. record { crossing = u.crossing.now; parts = parts u.frame.now } };

    ghost invariant = { λ u. IsOfFrame u.crossing.now (parts u.frame.now) };
}

impl<'a> Unit<'a> {
    /// The packet of a frame.
    pub fn of(crossing: &'a Crossing, frame: &'a Frame<'a>) -> Unit<'a>
        requires { IsOfFrame crossing.now (parts frame.now) }
        ensures { result ≡ record { crossing = crossing.now; parts = parts frame.now } }
    {
        Unit { crossing, frame }
    }

    pub(crate) fn crossing(&self) -> &Crossing
        ensures { result.now ≡ self.now.crossing }
    {
        self.crossing
    }

    /// The frame, of which the packet is.
    pub(crate) fn frame(&self) -> &Frame<'a>
        ensures frame { parts result.now ≡ self.now.parts }
        ensures of { IsOfFrame self.now.crossing self.now.parts }
    {
        self.frame
    }
}
