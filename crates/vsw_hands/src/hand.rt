//! What a thread that stays does.

ghost use Rattle.vsw_hands.specs.Hands.{Works};

use crate::worked::Worked;
use std::sync::Wait;
use std::time::Clock;

/// Works through shares, piece by piece. All threads have the same hand, by a `&`, and a share may go from thread to thread between its pieces.
pub trait Hand<S, T> {
    /// `goes was now`: the share that was given has become this.
    ghost goes: { S → S → Type 0 };

    /// `does was told`: the share that was given is worked through, and this is told of it.
    ghost does: { S → T → Type 0 };

    /// Does the next piece of a share.
    fn work<R: Wait + Clock>(&self, rt: &R, share: S) -> Worked<S, T>
        ensures { (was : S) → goes was share → Works goes does was result };
}
