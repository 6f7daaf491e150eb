//! The identity that a key is of.

ghost use Rattle.std.specs.Prelude.{◌≡◌, IfSome, Some};
ghost use Rattle.vsw_base.specs.declared.flow.Ufid.{Ufid};
ghost use Rattle.vsw_words.specs.Key as words;
ghost use Rattle.vsw_words.specs.Law.{IsId};

use vsw_base::{Dir, Stack, Ufid};
use vsw_words::identity_to;

/// The identity that key words are of. None exactly where they are of none.
pub fn id_of(key: &[u64; 16]) -> Option<Ufid>
    ensures told { IfSome result (λ id. IsId id × (key.now ≡ words.key_words id.dir id.stack)) }
    ensures back { (id : Ufid) → IsId id → key.now ≡ words.key_words id.dir id.stack → result ≡ Some id }
{
    let mut id = Ufid {
        dir: Dir::Out,
        stack: Stack::room(),
    };
    if identity_to(key, &mut id) {
        Some(id)
    } else {
        None
    }
}
