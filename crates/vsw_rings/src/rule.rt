//! What is promised of the items that go through a ring.

ghost use Rattle.std.specs.Prelude.{List};

use crate::Taken;
use rtrb::Protocol;
use std::marker::PhantomData;

/// What the thread that feeds a ring promises of its items.
pub trait Rule<T> {
    /// `fits before x` says that the item `x` may follow the items `before`.
    ghost fits: { List T → T → Type 0 };
}

/// The rule that lets every item through.
#[derive(Clone, Copy)]
pub struct AnyItem;

impl<T> Rule<T> for AnyItem {
    ghost fits = { λ _ _. Unit {0} };
}

/// The same rule, of all that goes through a ring: nothing is promised of an end.
pub struct Ruled<P> {
    rule: PhantomData<P>,
}

impl<T, P: Rule<T>> Protocol<Taken<T>> for Ruled<P> {
    ghost use Rattle.vsw_rings.specs.Items.{Follows};

    ghost allows = { Follows P.fits };
}
