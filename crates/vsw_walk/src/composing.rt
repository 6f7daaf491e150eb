//! What a walk does to a packet, as one transposition.

ghost use Rattle.std.specs.Prelude.{◌≡◌, IsTrue};
ghost use Rattle.vsw_base.specs.Shape.{encaps};
ghost use Rattle.vsw_rule.specs.Edit.{edited, kept_after};
ghost use Rattle.vsw_rule.specs.Match.{can_do};
ghost use Rattle.vsw_transpose.specs.Apply.{apply};
ghost use Rattle.vsw_transpose.specs.Fits as fit;
ghost use Rattle.vsw_walk.specs.Made.{CanMake, Does, Leads};

use crate::scratch::Scratch;
use crate::walking::Walked;
use vsw_base::Stack;
use vsw_rule::{Action, compose_to, edit_to};
use vsw_transpose::Transposition;

/// Rooms for one action: the stack that it meets, and its transposition.
#[derive(Drop)]
struct Rooms {
    stack: Stack,
    act: Transposition,
}

/// The transposition of an action.
fn act_to(action: &Action, stack: &Stack, out: &mut Transposition)
    requires can { IsTrue (can_do action.now stack.now) }
    ensures fits { IsTrue (fit.fits out.new stack.now) }
    ensures edit { apply out.new stack.now ≡ edited action.now stack.now }
    ensures kept { fit.kept out.new ≡ kept_after action.now stack.now (encaps stack.now) }
{
    match action {
        Action::Edit { decap, set, encap } => edit_to(*decap, set, encap, stack, out),
        Action::Allow | Action::Drop => {
            // It tells the proof that the stack is one.
            let _ = stack.headers();
            out.set_none(stack);
        }
    }
}

/// What was done to the first stack, and then an action, as one transposition.
fn compose_last(
    action: &Action,
    first: &Stack,
    by: &Transposition,
    rooms: &mut Rooms,
    out: &mut Transposition,
)
    requires fits { IsTrue (fit.fits by.now first.now) }
    requires can { IsTrue (can_do action.now (apply by.now first.now)) }
    ensures fits { IsTrue (fit.fits out.new first.now) }
    ensures made { apply out.new first.now ≡ edited action.now (apply by.now first.now) }
    ensures left { fit.kept out.new ≡ kept_after action.now (apply by.now first.now) (fit.kept by.now) }
{
    // They tell the proof that the stack is one, and that the acts are a transposition's.
    let _ = first.headers();
    let _ = by.acts();
    by.apply_to(first, &mut rooms.stack);
    act_to(action, &rooms.stack, &mut rooms.act);
    compose_to(by, &rooms.act, first, out);
}

/// These actions as one transposition. It and the one without the last action are made by turns in `out`
/// and `other`.
fn compose_all(
    actions: &[Action],
    first: &Stack,
    rooms: &mut Rooms,
    other: &mut Transposition,
    out: &mut Transposition,
)
    requires can { CanMake actions.now first.now }
    ensures { Does actions.now first.now out.new }
{
    let Some((last, before)) = actions.split_last() else {
        // It tells the proof that the stack is one.
        let _ = first.headers();
        out.set_none(first);
        return;
    };
    compose_all(before, first, rooms, out, other);
    compose_last(last, first, other, rooms, out);
}

impl Walked {
    /// What the walk did to the stack with which the packet came, as one transposition, where the scratch
    /// is as the walk left it. It clears the rooms that it takes: it is for what is kept.
    pub fn compose(&self, first: &Stack, scratch: &Scratch, out: &mut Transposition)
        requires leads { Leads first.now scratch.now self.now.kept }
        ensures fits { IsTrue (fit.fits out.new first.now) }
        ensures stack { apply out.new first.now ≡ scratch.now.stack }
        ensures kept { fit.kept out.new ≡ self.now.kept }
    {
        let mut rooms = Rooms {
            stack: Stack::room(),
            act: Transposition::room(),
        };
        let mut other = Transposition::room();
        compose_all(scratch.edits(), first, &mut rooms, &mut other, out);
    }
}
