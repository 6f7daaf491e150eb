//! The identity of a unified flow.

ghost use Rattle.std.specs.Prelude.{◌≡◌, ◌↔◌, IsTrue};

use vsw_base::{Dir, LayerKey, Stack, Ufid};

/// The id of a packet with this direction and these headers, which it copies.
pub fn ufid(dir: Dir, stack: &Stack) -> Ufid
    ensures dir { result.dir ≡ dir }
    ensures stack { result.stack ≡ stack.now }
{
    Ufid {
        dir,
        stack: stack.copy(),
    }
}

/// Whether two ids are one.
pub fn same_id(a: &Ufid, b: &Ufid) -> bool
    ensures { IsTrue result ↔ (a.now ≡ b.now) }
{
    a.dir == b.dir && a.stack.is_same(&b.stack)
}

/// Whether two keys are one.
pub fn same_key(a: &LayerKey, b: &LayerKey) -> bool
    ensures { IsTrue result ↔ (a.now ≡ b.now) }
{
    *a == *b
}
