//! The first word of a key, field by field.

ghost use Rattle.std.specs.Prelude.{◌≡◌};
ghost use Rattle.vsw_words.specs.Id as id;
ghost use Rattle.vsw_words.specs.Loose as spec;

use vsw_base::Dir;

/// What the first word of a key says: the direction, the number of encapsulations, and what the inner headers are.
/// Whether IPv4, IPv6 and ports are there is left out: the type, the mark of a fragment and the protocol tell it.
#[derive(Clone, Copy)]
pub(crate) struct Head {
    pub dir: Dir,
    pub count: u64,
    pub part: bool,
    pub proto: u8,
    pub kind: u16,
    pub src: u16,
    pub dst: u16,
}

/// The fields of a first word, the lowest first.
pub(crate) fn head_of(word: u64) -> Head
    ensures { result ≡ spec.head_of word }
{
    let side = word / 2;
    let count = side / 2;
    let part = count / 4 / 2 / 2;
    let proto = part / 2 / 2;
    let kind = proto / 0x100;
    let src = kind / 0x1_0000;
    let dst = src / 0x1_0000;
    Head {
        dir: dir_of(side % 2),
        count: count % 4,
        part: part % 2 == 1,
        proto: (proto % 0x100) as u8,
        kind: (kind % 0x1_0000) as u16,
        src: (src % 0x1_0000) as u16,
        dst: (dst % 0x1_0000) as u16,
    }
}

#[inline(always)]
fn dir_of(bit: u64) -> Dir
    ensures { result ≡ id.dir_of bit }
{
    match bit {
        0 => Dir::Out,
        _ => Dir::In,
    }
}
