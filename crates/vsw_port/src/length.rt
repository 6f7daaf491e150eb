//! How long a packet gets under pushed encapsulations.

ghost use Rattle.std.specs.Prelude.{◌≡◌, ◌≤◌, ◌+◌, ◌*◌, [], false, nat_lt, true};
ghost use Rattle.vsw_port.specs.Long as spec;
ghost use Rattle.vsw_frame.specs.Bytes.{total_over};
ghost use Rattle.vsw_walk.specs.Made.{Leads};

use vsw_base::{Crossing, Sizes, Stack};
use vsw_walk::{Scratch, Walked};

/// The most bytes that the total length of an IPv4 header can tell.
const MOST: u64 = 65_535;

/// The bytes of a frame without so many of its encapsulations.
fn size_without(sizes: Sizes, drops: u8) -> u32
    ensures { result ≡ spec.size_without sizes drops }
{
    match drops {
        0 => sizes.whole,
        1 => sizes.one,
        _ => sizes.two,
    }
}

/// The outermost total length where so many encapsulations are pushed; 0 where none is.
fn total(pushes: u8, len: u32) -> u64
    requires few { pushes ≤ 2 }
    ensures { result ≡ total_over pushes len }
{
    match pushes {
        0 => 0,
        1 => 36 + u64::from(len),
        _ => 86 + u64::from(len),
    }
}

/// So many bytes with as many encapsulations in front, 50 bytes each, which their total length can tell.
fn grown(pushes: u8, len: u32) -> u32
    requires few { pushes ≤ 2 }
    requires short { nat_lt 65535 (total_over pushes len) ≡ false }
    ensures { result ≡ len + 50 * pushes }
{
    match pushes {
        0 => len,
        1 => len + 50,
        _ => len + 100,
    }
}

/// Whether an encapsulation is pushed in front of more than it can tell the length of, where the packet
/// leaves with this stack and so many of its encapsulations are kept.
pub fn is_long(crossing: &Crossing, edited: &Stack, kept: u8) -> bool
    ensures { result ≡ spec.is_long crossing.now edited.now kept }
{
    let pushes = edited.encaps().saturating_sub(kept);
    let drops = crossing.id.stack.encaps().saturating_sub(kept);
    total(pushes, size_without(crossing.sizes, drops)) > MOST
}

/// Bytes of what leaves so, where the packet isn't long.
pub fn outgoing_size(crossing: &Crossing, edited: &Stack, kept: u8) -> u32
    requires short { spec.is_long crossing.now edited.now kept ≡ false }
    ensures { result ≡ spec.outgoing_size crossing.now edited.now kept }
{
    let pushes = edited.encaps().saturating_sub(kept);
    let drops = crossing.id.stack.encaps().saturating_sub(kept);
    grown(pushes, size_without(crossing.sizes, drops))
}

/// Whether the walk left the packet as it came.
#[inline(always)]
pub(crate) fn is_unedited(scratch: &Scratch) -> bool
    ensures { result ≡ true → scratch.now.edits ≡ [] }
{
    match scratch.edits() {
        [] => true,
        _ => false,
    }
}

/// `is_long` after a walk. A packet that it didn't edit pushes nothing.
#[inline(always)]
#[tactic(auto, using(crate::proofs::Unedited::own_short))]
pub(crate) fn is_walk_long(crossing: &Crossing, walked: &Walked, scratch: &Scratch) -> bool
    requires leads { Leads crossing.now.id.stack scratch.now walked.now.kept }
    ensures { result ≡ spec.is_long crossing.now scratch.now.stack walked.now.kept }
{
    if is_unedited(scratch) {
        return false;
    }
    is_long(crossing, scratch.stack(), walked.kept)
}

/// `outgoing_size` after a walk. A packet that it didn't edit leaves with the bytes of its frame.
#[inline(always)]
#[tactic(auto, using(crate::proofs::Unedited::own_size))]
pub(crate) fn size_walked(crossing: &Crossing, walked: &Walked, scratch: &Scratch) -> u32
    requires leads { Leads crossing.now.id.stack scratch.now walked.now.kept }
    requires short { spec.is_long crossing.now scratch.now.stack walked.now.kept ≡ false }
    ensures { result ≡ spec.outgoing_size crossing.now scratch.now.stack walked.now.kept }
{
    if is_unedited(scratch) {
        return crossing.sizes.whole;
    }
    outgoing_size(crossing, scratch.stack(), walked.kept)
}
