//! A packet as conditions look at it.

ghost use Rattle.std.specs.Prelude.{◌≡◌};
ghost use Rattle.vsw_base.specs.Shape.{encaps, inner};
ghost use Rattle.vsw_rule.specs.Field.{first_encap};

use std::marker::Model;
use vsw_base::{Header, Stack};

/// A packet as conditions look at it: where its inner headers and its first encapsulation stand is found
/// once, for all rules that ask. Contracts see its headers.
#[derive(Drop)]
pub struct Packet<'a> {
    inner: &'a [Header],
    first: &'a [Header],
    encaps: u8,
    stack: &'a Stack,
}

impl<'a> Model for Packet<'a> {
    ghost use Rattle.std.specs.Prelude.{◌≡◌, List};
    ghost use Rattle.vsw_base.specs.declared.header.Header.{Header};
    ghost use Rattle.vsw_rule.specs.Packet.{IsOf};

    ghost Value = { List Header };

    ghost view = { λ s. s.stack.now };

    ghost invariant = { λ s. IsOf s.stack.now s.inner.now s.first.now s.encaps };
}

impl<'a> Packet<'a> {
    /// The packet of this stack.
    #[inline(always)]
    pub fn of(stack: &'a Stack) -> Packet<'a>
        ensures { result ≡ stack.now }
    {
        Packet {
            inner: stack.inner(),
            first: first_encap(stack),
            encaps: stack.encaps(),
            stack,
        }
    }

    /// The inner headers.
    #[inline(always)]
    pub(crate) fn inner(&self) -> &[Header]
        ensures { result.now ≡ inner self.now }
    {
        self.inner
    }

    /// The headers of the first encapsulation, and none where there is none.
    #[inline(always)]
    pub(crate) fn first(&self) -> &[Header]
        ensures { result.now ≡ first_encap self.now }
    {
        self.first
    }

    /// The number of encapsulations.
    #[inline(always)]
    pub(crate) fn encaps(&self) -> u8
        ensures { result ≡ encaps self.now }
    {
        self.encaps
    }
}

/// The headers of the first encapsulation, and none where there is none.
fn first_encap(stack: &Stack) -> &[Header]
    ensures { result.now ≡ first_encap stack.now }
{
    let headers = stack.headers();
    if stack.encaps() == 0 {
        return &headers[..0];
    }
    &headers[..3]
}
