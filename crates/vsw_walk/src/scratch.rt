//! What a walk tells: the changes that it wants, what it looked for, and what it made of the stack.

ghost use Rattle.std.specs.Prelude.{◌≡◌, ◌≤◌, ◌<◌, ◌+◌, ◌∷◌, ◌++◌, [], Option, None, Some, false, IfOk, IsTrue, length, option_copied, option_map};
ghost use Rattle.vsw_base.specs.declared.flow.Outer.{Outer};
ghost use Rattle.vsw_base.specs.declared.flow.Set.{Set};
ghost use Rattle.vsw_rule.specs.Edit.{kept_after};
ghost use Rattle.vsw_header.specs.Key.{key_from};
ghost use Rattle.vsw_policy.specs.Layer.{seen};
ghost use Rattle.vsw_layerflow.specs.Pairs.{number_of, pair_of};
ghost use Rattle.vsw_rule.specs.declared.rule.Action.TheVariants.{Edit};
ghost use Rattle.vsw_rule.specs.Match.{can_do};
ghost use Rattle.vsw_walk.specs.Wanted.{nothing, wanted_pair};
ghost use Rattle.vsw_walk.specs.Going.{GoesOn, Looks};
ghost use Rattle.vsw_walk.specs.Walk as spec;
ghost use Rattle.vsw_walk.specs.Walk.{due_of, leaving};
ghost use Rattle.vsw_walk.specs.declared.scratch.Wanted.TheVariants.{Make, Touch};

use crate::slots::{slots, tell};
use crate::turns::Turns;
use crate::wanted::{edits, plain_pair};
use crate::{reverse_set, set_of, wanted_pair};
use std::alloc::Global;
use std::marker::Model;
use vsw_base::{Addr, Control, Dir, LayerKey, Mac, Moment, NoMemory, Outer, Set, Stack, Track};
use vsw_header::key_of;
use vsw_layerflow::{Pair, due};
use vsw_policy::{Layer, LayerSpec};
use vsw_rule::{Action, Rule};

/// The most changes that a walk can want: two of each of 128 layers.
const ROOM: usize = 256;

/// The most layers that a packet crosses. Each is looked into once, and edits the packet once at most.
const LAYERS: usize = 128;

/// A change that a packet wants of a layer's pairs. The layer is told by its place among those of the
/// policy.
#[derive(Clone, Copy, Debug, PartialEq, Eq)]
pub enum Wanted {
    /// A pair of the packet's flow.
    Make {
        layer: u32,
        pair: Pair,
    },
    /// Another state or last use of the pair of this number.
    Touch {
        layer: u32,
        number: u32,
        state: Track,
        last: Moment,
    },
    /// The pair of this number goes, since the packet re-opens it.
    Leave {
        layer: u32,
        number: u32,
    },
}

/// What a packet looked for among the pairs of a layer: its direction and key, and the number of the pair
/// that holds them, if one does. The layer is told by its place among those of the policy.
#[derive(Clone, Copy, Debug, PartialEq, Eq)]
pub struct Looked {
    pub key: LayerKey,
    pub found: Option<u32>,
    pub layer: u32,
    pub dir: Dir,
}

/// Room for what a walk tells, kept from packet to packet.
#[derive(Drop)]
pub struct Scratch {
    stack: Turns,
    edits: Vec<Action>,
    wanted: Vec<Wanted>,
    /// A slot for each layer. The first of them are told.
    looked: Vec<Looked>,
    /// How many looks are told.
    looks: usize,
    /// The look told last has the key of the stack.
    known: bool,
    due: Option<Moment>,
}

impl Model for Scratch {
    ghost use Rattle.std.specs.Prelude.{◌≡◌, ◌<◌, ◌≤◌, ◌-◌, IsTrue, length, take, vec_capacity};
    ghost use Rattle.vsw_walk.specs.Private.Slots.{HasKey};
    ghost use Rattle.vsw_walk.specs.Walk.{Told};

    ghost Value = { Told };

    ghost view = { λ s. record { stack = s.stack; edits = s.edits.items; changes = s.wanted.items; looked = take s.looks s.looked.items; due = s.due } };

    ghost invariant = { λ s. (256 ≤ vec_capacity s.wanted) × (128 ≤ vec_capacity s.edits) × (length s.looked.items ≡ 128) × (s.looks ≤ 128) × (length s.edits.items ≤ s.looks) × (IsTrue s.known → (0 < s.looks) × HasKey (s.looks - 1) s.stack s.looked.items) };
}

impl Scratch {
    /// Room for what the longest walk tells.
    pub fn new(alloc: Global) -> Result<Scratch, NoMemory>
        ensures changes { IfOk result (λ scratch. scratch.changes ≡ []) }
        ensures looked { IfOk result (λ scratch. scratch.looked ≡ []) }
        ensures due { IfOk result (λ scratch. scratch.due ≡ None) }
    {
        let Ok(wanted) = Vec::with_capacity(alloc, ROOM) else {
            return Err(NoMemory);
        };
        let Ok(looked) = slots(alloc, LAYERS) else {
            return Err(NoMemory);
        };
        match Vec::with_capacity(alloc, LAYERS) {
            Ok(edits) => Ok(Scratch {
                stack: Turns::room(),
                edits,
                wanted,
                looked,
                looks: 0,
                known: false,
                due: None,
            }),
            Err(_) => Err(NoMemory),
        }
    }

    /// The stack with which the last packet ended its walk: with which it passed, or met the layer that
    /// dropped it.
    #[inline(always)]
    pub fn stack(&self) -> &Stack
        ensures { result.now ≡ self.now.stack }
    {
        self.stack.stack()
    }

    /// The changes that the last walk wanted, in the order in which the packet crossed the layers. Before
    /// the first walk there are none.
    pub fn changes(&self) -> &[Wanted]
        ensures { result.now ≡ self.now.changes }
    {
        &self.wanted
    }

    /// What the last walk looked for, in the order in which the packet crossed the layers: one look of each,
    /// the layer that dropped the packet included. Before the first walk there are none.
    pub fn looked(&self) -> &[Looked]
        ensures { result.now ≡ self.now.looked }
    {
        &self.looked[..self.looks]
    }

    /// The actions that made the stack of the one with which the last packet came, in their order.
    #[inline(always)]
    pub fn edits(&self) -> &[Action]
        ensures { result.now ≡ self.now.edits }
    {
        &self.edits
    }

    /// The least moment at which one of the pairs is due that were found.
    pub(crate) fn due(&self) -> Option<Moment>
        ensures { result ≡ self.now.due }
    {
        self.due
    }

    /// A packet with this stack begins its walk.
    pub(crate) fn begin(&mut self, first: &Stack)
        ensures { self.new ≡ record { stack = first.now; edits = []; changes = []; looked = []; due = None } }
    {
        self.stack.copy_from(first);
        self.edits.clear();
        self.wanted.clear();
        self.looks = 0;
        self.known = false;
        self.due = None;
    }

    /// Looks in the layer at a place for the pair of the packet, and tells the look and when the pair is due.
    #[inline(always)]
    pub(crate) fn look<'a>(&mut self, layer: &'a Layer, place: u32, dir: Dir) -> Option<&'a Pair>
        requires { length self.old.looked + 1 ≤ 128 }
        ensures found { option_copied result ≡ pair_of dir (key_from self.old.stack) (seen layer.now).pairs }
        ensures looks { Looks place (seen layer.now) dir self.old self.new }
        ensures room { length self.new.edits < length self.new.looked }
    {
        let stack = self.stack.stack();
        let found = tell(
            &layer.flows,
            place,
            dir,
            stack,
            self.known,
            &mut self.looked,
            self.looks,
        );
        self.looks += 1;
        self.known = true;
        if let Some(pair) = found {
            self.due = sooner(self.due, due_in(pair, &layer.spec));
        }
        found
    }

    /// Tells that a pair leaves a layer, if one does.
    #[inline(always)]
    pub(crate) fn leave(&mut self, layer: u32, leaves: Option<&Pair>)
        requires { length self.old.changes + 1 ≤ 256 }
        ensures { self.new ≡ record self.old { changes = self.old.changes ++ leaving layer (option_map number_of (option_copied leaves.entry)) } }
    {
        if let Some(pair) = leaves {
            self.wanted.push_reserved(Wanted::Leave {
                layer,
                number: pair.number,
            });
        }
    }

    /// Tells that a pair gets this state and last use.
    pub(crate) fn touch(&mut self, layer: u32, pair: &Pair, state: Track, last: Moment)
        requires { length self.old.changes + 1 ≤ 256 }
        ensures { self.new ≡ record self.old { changes = self.old.changes ++ Touch layer pair.now.number state last ∷ [] } }
    {
        // The check finds the types within a pair only where one of them is named beside the push.
        let _mac: &Option<Mac> = &pair.forward_set.dst_mac;
        let _address: &Addr = &pair.forward.src;
        self.wanted.push_reserved(Wanted::Touch {
            layer,
            number: pair.number,
            state,
            last,
        });
    }

    /// The packet goes on from a layer as its action leaves it. How many encapsulations are kept of so many.
    #[inline(always)]
    pub(crate) fn go_on(&mut self, action: &Action, kept: u8) -> u8
        requires can { IsTrue (can_do action.now self.old.stack) }
        requires few { length self.old.looked ≤ 128 }
        requires room { length self.old.edits < length self.old.looked }
        ensures { GoesOn action.now [] self.old self.new kept result }
    {
        match action {
            Action::Edit { decap, set, encap } => self.edit(*decap, set, encap, kept),
            Action::Allow | Action::Drop => kept,
        }
    }

    /// The packet goes on with this written into its inner headers. Where that is nothing it isn't edited.
    pub(crate) fn write(&mut self, set: &Set, kept: u8) -> u8
        requires few { length self.old.looked ≤ 128 }
        requires room { length self.old.edits < length self.old.looked }
        ensures { GoesOn (Edit false set.now None) [] self.old self.new kept result }
    {
        if is_nothing(set) {
            return kept;
        }
        self.edit(false, set, &None, kept)
    }

    /// The packet goes on edited. How many encapsulations are kept of so many.
    fn edit(&mut self, decap: bool, set: &Set, encap: &Option<Outer>, kept: u8) -> u8
        requires can { IsTrue (can_do (Edit decap set.now encap.now) self.old.stack) }
        requires few { length self.old.looked ≤ 128 }
        requires room { length self.old.edits < length self.old.looked }
        ensures { GoesOn (Edit decap set.now encap.now) [] self.old self.new kept result }
    {
        self.edits.push_reserved(Action::Edit {
            decap,
            set: *set,
            encap: *encap,
        });
        let left = left_of(kept, decap, self.stack.stack());
        self.stack.edit(decap, set, encap);
        self.known = false;
        left
    }

    /// The packet goes on by a stateful rule of a group, which wants a pair of this number. How many
    /// encapsulations are kept of so many.
    pub(crate) fn make(
        &mut self,
        layer: u32,
        number: u32,
        group: u16,
        rule: &Rule,
        dir: Dir,
        control: Control,
        moment: Moment,
        kept: u8,
    ) -> u8
        requires can { IsTrue (can_do rule.now.action self.old.stack) }
        requires few { length self.old.looked ≤ 128 }
        requires room { length self.old.edits < length self.old.looked }
        requires changes { length self.old.changes + 1 ≤ 256 }
        ensures { GoesOn rule.now.action (Make layer (wanted_pair number dir control moment self.old.stack group rule.now) ∷ []) self.old self.new kept result }
    {
        if edits(&rule.action) {
            return self.make_edited(layer, number, group, rule, dir, control, moment, kept);
        }
        let met = key_of(self.stack.stack());
        let left = self.go_on(&rule.action, kept);
        self.wanted.push_reserved(Wanted::Make {
            layer,
            pair: plain_pair(number, group, rule, dir, control, moment, &met),
        });
        left
    }

    /// The same, where the rule may edit the packet: replies have the key with which it goes on, and get undone what is written.
    #[inline(never)]
    fn make_edited(
        &mut self,
        layer: u32,
        number: u32,
        group: u16,
        rule: &Rule,
        dir: Dir,
        control: Control,
        moment: Moment,
        kept: u8,
    ) -> u8
        requires can { IsTrue (can_do rule.now.action self.old.stack) }
        requires few { length self.old.looked ≤ 128 }
        requires room { length self.old.edits < length self.old.looked }
        requires changes { length self.old.changes + 1 ≤ 256 }
        ensures { GoesOn rule.now.action (Make layer (wanted_pair number dir control moment self.old.stack group rule.now) ∷ []) self.old self.new kept result }
    {
        let met = key_of(self.stack.stack());
        let back = reverse_set(&set_of(&rule.action), self.stack.stack());
        let left = self.go_on(&rule.action, kept);
        let after = key_of(self.stack.stack());
        self.wanted.push_reserved(Wanted::Make {
            layer,
            pair: wanted_pair(
                number, group, rule, dir, control, moment, &met, &back, &after,
            ),
        });
        left
    }
}

/// Whether nothing is written.
#[inline(always)]
fn is_nothing(set: &Set) -> bool
    ensures { IsTrue result → set.now ≡ nothing }
{
    set.dst_mac.is_none()
        && set.src_mac.is_none()
        && set.src_ip.is_none()
        && set.dst_ip.is_none()
        && set.src_port.is_none()
        && set.dst_port.is_none()
        && set.src_ip6.is_none()
        && set.dst_ip6.is_none()
}

/// How many encapsulations are kept of so many, where the first of the stack goes.
fn left_of(kept: u8, decap: bool, stack: &Stack) -> u8
    ensures { (set : Set) (encap : Option Outer) → result ≡ kept_after (Edit decap set encap) stack.now kept }
{
    if decap {
        kept.min(stack.encaps().saturating_sub(1))
    } else {
        kept
    }
}

/// The lesser of a moment, where there is one, and another.
fn sooner(a: Option<Moment>, b: Moment) -> Option<Moment>
    ensures { result ≡ spec.sooner a (Some b) }
{
    match a {
        None => Some(b),
        Some(a) => Some(Moment::of(a.micros().min(b.micros()))),
    }
}

/// When the pair that was found is due.
fn due_in(pair: &Pair, times: &LayerSpec) -> Moment
    ensures { Some result ≡ due_of times.now (Some pair.now) }
{
    due(pair.last_use, pair.state, times.idle, times.linger)
}
