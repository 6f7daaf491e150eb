//! Actors of either kind, in one slice.

ghost use Rattle.std.specs.Prelude.{◌≡◌, length};
ghost use Rattle.vsw_actors.specs.Private.Seats.{done_of, todo_of, who_of};

use crate::actor::{Actor, Begun, Placed};
use crate::port::Port;
use crate::reconciler::{Reconciler, RowPort};
use std::alloc::Global;
use std::sync::Wait;
use vsw_workers::Forwarder;

/// An actor of a round: a caller, or the reconciler. A job of the reconciler is told as none.
#[derive(Drop)]
pub(crate) enum Seat<'a, J, P: Port<J>> {
    Caller(Actor<'a, J, P>),
    Reconciler(Reconciler<'a, P>),
}

impl<'a, J, P: Port<J> + RowPort> Forwarder for Seat<'a, J, P> {
    ghost use Rattle.vsw_actors.specs.Private.Seats.{done_of, todo_of, who_of};

    type What = Option<Begun<P>>;

    type Job = Option<Placed<J>>;

    ghost what = { who_of };

    ghost done = { done_of };

    ghost todo = { todo_of };

    fn job<R: Wait>(&mut self, rt: &R, alloc: Global) -> bool {
        match self {
            Seat::Caller(actor) => actor.job(rt, alloc),
            Seat::Reconciler(reconciler) => reconciler.job(rt),
        }
    }

    fn left(&self) -> u32 {
        match self {
            Seat::Caller(actor) => actor.left(),
            Seat::Reconciler(reconciler) => reconciler.left(),
        }
    }
}
