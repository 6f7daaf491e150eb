//! Shares at work, and what was told of them, each with the brief that says which share was given.

ghost use Rattle.boxcar.specs.Table.{Shows};

use crate::hand::Hand;
use crate::roll::Roll;
use crate::worked::Worked;
use boxcar::Pushed;
use std::marker::{Model, PhantomData};
use std::snapshot::Snapshot;
use std::sync::Wait;
use std::time::Clock;

/// Shows which share was given.
pub(crate) type Brief<S> = Pushed<Snapshot<S>>;

/// A share as it has become, with the brief of the share that was given.
#[derive(Drop)]
pub(crate) struct Task<S, T, W: Hand<S, T>, B: Roll> {
    pub share: S,
    pub brief: Brief<S>,
    pub of: PhantomData<(T, W, B)>,
}

impl<S, T, W: Hand<S, T>, B: Roll> Model for Task<S, T, W, B> {
    ghost Value = { Unit {0} };

    ghost view = { λ _. tt };

    ghost invariant = { λ t. W.goes t.brief.value.value t.share × Shows B.shelves t.brief };
}

/// What was told of a share, with the brief of the share that was given.
#[derive(Drop)]
pub(crate) struct Done<S, T, W: Hand<S, T>, B: Roll> {
    pub told: T,
    pub brief: Brief<S>,
    pub of: PhantomData<(S, W, B)>,
}

impl<S, T, W: Hand<S, T>, B: Roll> Model for Done<S, T, W, B> {
    ghost Value = { Unit {0} };

    ghost view = { λ _. tt };

    ghost invariant = { λ d. W.does d.brief.value.value d.told × Shows B.shelves d.brief };
}

/// Does a task's next piece.
pub(crate) fn go_on<R: Wait + Clock, S, T, W: Hand<S, T>, B: Roll>(
    rt: &R,
    hand: &W,
    task: Task<S, T, W, B>,
) -> Worked<Task<S, T, W, B>, Done<S, T, W, B>> {
    let Task {
        share,
        brief,
        of: _,
    } = task;
    match hand.work(rt, share) {
        Worked::More(share) => Worked::More(Task {
            share,
            brief,
            of: PhantomData,
        }),
        Worked::Done(told) => Worked::Done(Done {
            told,
            brief,
            of: PhantomData,
        }),
    }
}
