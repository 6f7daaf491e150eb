//! Transpositions.

ghost use Rattle.std.specs.Prelude.{◌≡◌, ◌↔◌, ◌*◌, ◌+◌, ◌≤◌, [], Ok, Err, IsTrue, List, if◌then◌else◌, length, replicate};
ghost use Rattle.vsw_base.specs.declared.header.Header.{Header};
ghost use Rattle.vsw_base.specs.Shape.{is_stack, encaps};
ghost use Rattle.vsw_transpose.specs.declared.act.Act.{Act};
ghost use Rattle.vsw_transpose.specs.declared.act.Act.TheVariants.{Ignore};
ghost use Rattle.vsw_transpose.specs.Apply as spec;
ghost use Rattle.vsw_transpose.specs.Fits as fit;
ghost use Rattle.vsw_transpose.specs.Form.{is_form, pops};
ghost use Rattle.vsw_transpose.specs.Private.Suits.{suits};

use crate::act::Act;
use crate::acts::Acts;
use crate::doing::{act, do_suit};
use crate::form;
use std::marker::Model;
use vsw_base::{Headers, Stack, Writes};

/// The acts aren't of the form of a transposition.
#[derive(Clone, Copy, Debug, PartialEq, Eq)]
pub struct BadActs;

/// What is done to the headers of a stack, outermost first: at most eighteen acts, first pops in threes,
/// then pushes of whole encapsulations, then an ignore or a modify for each header that stays.
#[derive(Drop)]
pub struct Transposition {
    acts: Acts,
}

impl Model for Transposition {
    ghost use Rattle.std.specs.Prelude.{List, IsTrue};
    ghost use Rattle.vsw_transpose.specs.declared.act.Act.{Act};
    ghost use Rattle.vsw_transpose.specs.Form.{is_form};

    ghost Value = { List Act };

    ghost view = { λ s. s.acts };

    ghost invariant = { λ s. IsTrue (is_form s.acts) };
}

/// What writes acts into a room that has none.
pub trait WritesActs {
    ghost gives: { Self → List Act };

    ghost is_ready: { Self → Type 0 };

    fn write(&self, out: &mut Acts)
        requires ready { is_ready self.now }
        requires empty { out.old ≡ [] }
        requires form { IsTrue (is_form (gives self.now)) }
        ensures { out.new ≡ gives self.now };
}

/// A transposition at a stack.
#[derive(Drop)]
struct Applied<'a> {
    by: &'a Transposition,
    to: &'a Stack,
}

impl Writes for Applied<'_> {
    ghost gives = { λ s. spec.apply s.by.now s.to.now };

    ghost is_ready = { λ s. Unit {0} };

    #[inline(always)]
    fn write(&self, out: &mut Headers) {
        act(out, self.by.acts(), self.to.headers());
    }
}

fn copied(acts: &[Act]) -> Acts
    requires { length acts.now ≤ 18 }
    ensures { result ≡ acts.now }
{
    let mut copy = Acts::new();
    for act in acts {
        copy.push(*act);
    }
    copy
}

/// So many ignores, in a room.
#[inline(always)]
fn fill_ignores(acts: &mut Acts, count: usize)
    requires { count ≤ 18 }
    ensures { acts.new ≡ replicate count Ignore }
{
    acts.clear();
    for _ in 0..count {
        acts.push(Act::Ignore);
    }
}

fn ignores(count: usize) -> Acts
    requires { count ≤ 18 }
    ensures { result ≡ replicate count Ignore }
{
    let mut acts = Acts::new();
    fill_ignores(&mut acts, count);
    acts
}

impl Transposition {
    /// The transposition of these acts.
    pub fn of(acts: &[Act]) -> Result<Transposition, BadActs>
        ensures { result ≡ (if is_form acts.now then Ok acts.now else Err (record {})) }
    {
        if !form::is_form(acts) {
            return Err(BadActs);
        }
        Ok(Transposition { acts: copied(acts) })
    }

    /// The transposition of acts that are known to be of its form.
    pub fn new(acts: Acts) -> Transposition
        requires { IsTrue (is_form acts) }
        ensures { result ≡ acts }
    {
        Transposition { acts }
    }

    /// A transposition to write others into. It clears eighteen places: make it once.
    pub fn room() -> Transposition
        ensures { IsTrue (is_form result) }
    {
        Transposition { acts: ignores(1) }
    }

    /// The acts, in the order in which they are done.
    #[inline(always)]
    pub fn acts(&self) -> &[Act]
        ensures all { result.now ≡ self.now }
        ensures form { IsTrue (is_form result.now) }
        ensures room { length result.now ≤ 18 }
    {
        self.acts.as_slice()
    }

    /// Whether it can be done to the stack: each header has its act and each act but a push its header,
    /// encapsulations are popped whole, fields are written into inner headers of their kind alone, and a
    /// stack comes out, of at most two encapsulations.
    #[tactic(auto, using(crate::proofs::Suits::fits_is))]
    pub fn fits(&self, stack: &Stack) -> bool
        ensures { result ≡ fit.fits self.now stack.now }
    {
        let acts = self.acts();
        let outer = 3 * usize::from(stack.encaps());
        do_suit(outer, acts, stack.headers()) && makes_stack(acts, stack)
    }

    /// The stack that it makes of one that it fits.
    pub fn apply(&self, stack: &Stack) -> Stack
        requires { IsTrue (fit.fits self.now stack.now) }
        ensures done { result ≡ spec.apply self.now stack.now }
        ensures shape { IsTrue (is_stack result) }
    {
        let mut made = Stack::room();
        self.apply_to(stack, &mut made);
        made
    }

    /// The stack that it makes of one that it fits, in a room.
    #[inline(always)]
    pub fn apply_to(&self, stack: &Stack, out: &mut Stack)
        requires { IsTrue (fit.fits self.now stack.now) }
        ensures { out.new ≡ spec.apply self.now stack.now }
    {
        out.rewrite(&Applied {
            by: self,
            to: stack,
        });
    }

    /// It becomes the transposition of the acts that are written.
    #[inline(always)]
    pub fn rewrite<W: WritesActs>(&mut self, by: &W)
        requires ready { W.is_ready by.now }
        requires form { IsTrue (is_form (W.gives by.now)) }
        ensures { self.new ≡ W.gives by.now }
    {
        self.acts.clear();
        by.write(&mut self.acts);
    }

    /// It becomes the transposition that does nothing to the stack.
    pub fn set_none(&mut self, stack: &Stack)
        ensures { self.new ≡ fit.none stack.now }
    {
        fill_ignores(&mut self.acts, stack.headers().len());
    }

    /// The number of encapsulations that stay of a stack that it fits. Three pops stand for each of the
    /// others.
    pub fn kept(&self) -> u8
        ensures value { result ≡ fit.kept self.now }
        ensures rest { (hs : List Header) → IsTrue (is_stack hs) → IsTrue (fit.fits self.now hs) → 3 * result + pops self.now ≡ 3 * encaps hs }
    {
        (form::stays(self.acts()).saturating_sub(1) / 3) as u8
    }

    /// The transposition that does nothing to the stack: an ignore for each header.
    pub fn none(stack: &Stack) -> Transposition
        ensures acts { result ≡ fit.none stack.now }
        ensures fits { IsTrue (fit.fits result stack.now) }
        ensures same { spec.apply result stack.now ≡ stack.now }
        ensures kept { fit.kept result ≡ encaps stack.now }
    {
        Transposition {
            acts: ignores(stack.headers().len()),
        }
    }

    /// Whether two transpositions have the same acts.
    pub fn is_same(&self, other: &Transposition) -> bool
        ensures { IsTrue result ↔ (self.now ≡ other.now) }
    {
        self.acts() == other.acts()
    }
}

/// Whether acts that suit the stack make a stack of it.
fn makes_stack(acts: &[Act], stack: &Stack) -> bool
    requires room { length acts.now ≤ 18 }
    requires suit { IsTrue (suits (fit.outer stack.now) acts.now stack.now) }
    ensures { result ≡ is_stack (spec.apply acts.now stack.now) }
{
    let headers = stack.headers();
    if headers.len() + form::pushes(acts) > 9 + form::pops(acts) {
        return false;
    }
    let mut made = Headers::new();
    act(&mut made, acts, headers);
    Stack::of(made.as_slice()).is_ok()
}
