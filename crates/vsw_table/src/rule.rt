//! The rule of the table, and what each kind of step tells.
use crate::view::View;
use atomic_table::{Join, Play, Split, TableRule};
use std::marker::PhantomData;
use std::snapshot::Snapshot;
use vsw_stamps::Story;

/// The rule: `IsKept`.
pub struct Kept<S> {
    story: PhantomData<S>,
}

/// What the table is told when it is made.
#[derive(Drop)]
pub struct Key<O> {
    pub opening: Snapshot<O>,
    pub rows: u32,
}

impl<S: Story> TableRule<S::Entry, View<S::Opening, S::Entry>, Key<S::Opening>> for Kept<S> {
    ghost use Rattle.vsw_table.specs.Rules.{IsKept, first_view};

    ghost holds = { λ k s. IsKept S.who S.good k.opening.value k.rows s };

    ghost first = { λ k. first_view k.opening.value k.rows };
}

/// A pass loads a row's stamp.
pub struct ReadStamp;

impl<O, E> Play<E, View<O, E>> for ReadStamp {
    ghost use Rattle.vsw_table.specs.Steps.{Stamped};

    ghost then = { Stamped };
}

/// A pass loads the next word of the row whose stamp it loaded last.
pub struct ReadWord;

impl<O, E> Play<E, View<O, E>> for ReadWord {
    ghost use Rattle.vsw_table.specs.Steps.{Reads};

    ghost then = { Reads };
}

/// A pass loads word 0.
pub struct Count;

impl<O, E> Play<E, View<O, E>> for Count {
    ghost use Rattle.vsw_table.specs.Steps.{Counts};

    ghost then = { Counts };
}

/// A pass loads word 0, and its look ends.
pub struct End;

impl<O, E> Play<E, View<O, E>> for End {
    ghost use Rattle.vsw_table.specs.Steps.{Ends};

    ghost then = { Ends };
}

/// A pass loads a row's stamp again.
pub struct Compare<S> {
    story: PhantomData<S>,
}

impl<S: Story> Play<S::Entry, View<S::Opening, S::Entry>> for Compare<S> {
    ghost use Rattle.vsw_table.specs.Steps.{Compares};

    ghost then = { Compares S.good };
}

/// The writer loads a word that it keeps.
pub struct Find;

impl<O, E> Play<E, View<O, E>> for Find {
    ghost use Rattle.vsw_table.specs.Steps.{Finds};

    ghost then = { Finds };
}

/// The writer stores a word of a row.
pub struct PutWord;

impl<O, E> Play<E, View<O, E>> for PutWord {
    ghost use Rattle.vsw_table.specs.Steps.{PutsWord};

    ghost then = { PutsWord };
}

/// The writer takes a row's stamp away.
pub struct Shake;

impl<O, E> Play<E, View<O, E>> for Shake {
    ghost use Rattle.vsw_table.specs.Steps.{Shakes};

    ghost then = { Shakes };
}

/// The writer gives a row a stamp.
pub struct Restamp;

impl<O, E> Play<E, View<O, E>> for Restamp {
    ghost use Rattle.vsw_table.specs.Steps.{Restamps};

    ghost then = { Restamps };
}

/// The lent seat loads word 0, and grants permits.
pub struct Grant<S> {
    story: PhantomData<S>,
}

impl<S: Story> Play<S::Entry, View<S::Opening, S::Entry>> for Grant<S> {
    ghost use Rattle.vsw_table.specs.Steps.{Grants};

    ghost then = { Grants S.who };
}

/// The lent seat adds an entry.
pub struct Add;

impl<O, E> Play<E, View<O, E>> for Add {
    ghost use Rattle.vsw_table.specs.Steps.{Adds};

    ghost then = { Adds };
}

/// One pass more.
pub struct More;

impl<O, E> Split<View<O, E>> for More {
    ghost use Rattle.vsw_table.specs.Rules.{one_more, newcomer};

    ghost left = { one_more };

    ghost right = { newcomer };
}

/// A note is made, and a note is learned.
pub struct Tell;

impl<O, E> Split<View<O, E>> for Tell {
    ghost use Rattle.vsw_table.specs.Rules.{noted};

    ghost left = { λ v. v };

    ghost right = { noted };
}

impl<O, E> Join<View<O, E>> for Tell {
    ghost use Rattle.vsw_table.specs.Rules.{informed, spent};

    ghost both = { informed };

    ghost spent = { spent };
}

/// A pass's view goes to a new seat.
pub struct Leave;

impl<O, E> Split<View<O, E>> for Leave {
    ghost use Rattle.vsw_table.specs.Rules.{spent, moved};

    ghost left = { λ v. spent };

    ghost right = { moved };
}

/// The writer's seat takes a pass in, and they part again.
pub struct Lend;

impl<O, E> Join<View<O, E>> for Lend {
    ghost use Rattle.vsw_table.specs.Rules.{lent, spent};

    ghost both = { lent };

    ghost spent = { spent };
}

impl<O, E> Split<View<O, E>> for Lend {
    ghost use Rattle.vsw_table.specs.Rules.{writer_of, pass_of};

    ghost left = { writer_of };

    ghost right = { pass_of };
}
