//! What the lead has of the board.

ghost use Rattle.std.specs.Prelude.{◌≡◌, ◌++◌, ◌∷◌, [], IfOk, OnErr, OnOk, All, map};
ghost use Rattle.boxcar.specs.Table.{Shows};
ghost use Rattle.vsw_hands.specs.Private.Briefs.{share_of};
ghost use Rattle.vsw_hands.specs.Hands.{AllDone};

use crate::board::Board;
use crate::hand::Hand;
use crate::roll::Roll;
use crate::task::Brief;
use std::alloc::Global;
use std::marker::Model;
use std::sync::Wait;
use std::time::Clock;
use vsw_base::NoMemory;

/// Where the lead gives shares and takes what is told of them. Contracts see it as the shares that are out, in the order in which they were given.
#[derive(Drop)]
pub struct Pool<'p, S, T, W: Hand<S, T>, B: Roll> {
    board: &'p Board<S, T, W, B>,
    hand: &'p W,
    briefs: Vec<Brief<S>>,
}

impl<'p, S, T, W: Hand<S, T>, B: Roll> Model for Pool<'p, S, T, W, B> {
    ghost use Rattle.std.specs.Prelude.{All, List, map};
    ghost use Rattle.boxcar.specs.Table.{Shows};
    ghost use Rattle.vsw_hands.specs.Private.Briefs.{share_of};

    ghost Value = { List S };

    ghost view = { λ p. map share_of p.briefs.items };

    ghost invariant = { λ p. All (Shows B.shelves) p.briefs.items };
}

/// Puts a share on the board, and keeps its brief.
#[tactic(auto, using(crate::proofs::Gathered::shown_more))]
fn give_one<R: Wait + Clock, S: Drop, T: Drop, W: Hand<S, T>, B: Roll>(
    rt: &R,
    board: &Board<S, T, W, B>,
    briefs: &mut Vec<Brief<S>>,
    share: S,
) -> Result<(), NoMemory>
    requires goes { W.goes share share }
    requires shown { All (Shows B.shelves) briefs.old.items }
    ensures shown { All (Shows B.shelves) briefs.new.items }
    ensures given { OnOk result (map share_of briefs.new.items ≡ map share_of briefs.old.items ++ share ∷ []) }
    ensures same { OnErr result (briefs.new.items ≡ briefs.old.items) }
{
    if briefs.reserve(1).is_err() {
        return Err(NoMemory);
    }
    let (task, brief) = board.brief(rt, share)?;
    board.put(rt, task, briefs.len())?;
    briefs.push_reserved(brief);
    Ok(())
}

impl<'p, S: Drop, T: Drop, W: Hand<S, T>, B: Roll> Pool<'p, S, T, W, B> {
    /// A pool of which no share is out.
    pub(crate) fn new(board: &'p Board<S, T, W, B>, hand: &'p W, alloc: Global) -> Self
        ensures { result ≡ [] }
    {
        Pool {
            board,
            hand,
            briefs: Vec::new(alloc),
        }
    }

    /// Gives a share to the hands. After `NoMemory` it isn't given.
    pub fn give<R: Wait + Clock>(&mut self, rt: &R, share: S) -> Result<(), NoMemory>
        requires goes { W.goes share share }
        ensures given { OnOk result (self.new ≡ self.old ++ share ∷ []) }
        ensures same { OnErr result (self.new ≡ self.old) }
    {
        give_one(rt, self.board, &mut self.briefs, share)
    }

    /// Works too until all shares are worked through, and takes what is told of them, in their order. After `NoMemory` what was told is lost.
    pub fn take<R: Wait + Clock>(&mut self, rt: &R, alloc: Global) -> Result<Vec<T>, NoMemory>
        ensures told { IfOk result (λ tolds. AllDone W.does self.old tolds.items) }
        ensures none { self.new ≡ [] }
    {
        self.board.help(rt, self.hand, self.briefs.len());
        let tolds = self.board.gather(rt, alloc, &self.briefs);
        self.board.clear(rt);
        self.briefs.clear();
        tolds
    }
}
