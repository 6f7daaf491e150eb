//! Rewriting frames.

ghost use Rattle.std.specs.Prelude.{◌≡◌, ◌≤◌, ◌<◌, ◌+◌, ◌*◌, IfOk, IsTrue, OnOk, OnErr, drop, length, take};
ghost use Rattle.vsw_base.specs.Shape as shape;
ghost use Rattle.vsw_base.specs.Shape.{encaps, inner, is_stack};
ghost use Rattle.vsw_frame.specs.Push.{pushed, AreEncaps};
ghost use Rattle.vsw_frame.specs.Bytes as bytes;
ghost use Rattle.vsw_frame.specs.Bytes.{AreLike, IsEdit, answer, levels_changed, outgoing, outgoing_size, over, total_over};
ghost use Rattle.vsw_frame.specs.Frame.{parts};
ghost use Rattle.vsw_frame.specs.Levels.{levels_of, Stand};
ghost use Rattle.vsw_transpose.specs.Apply.{apply};
ghost use Rattle.vsw_transpose.specs.Fits.{fits, kept};

use crate::change::change_levels;
use crate::frame::{Frame, Levels};
use crate::levels::{all_levels, levels_without};
use crate::{ENCAP_LEN, write_encaps};
use vsw_base::{Header, Long, Stack};
use vsw_header::flow_sum;
use vsw_transpose::Transposition;

/// Bytes that an IPv4 header can say (RFC 791, section 3.1).
const TOTAL_MAX: u32 = 65_535;

/// Headers of an encapsulation.
const ENCAP_HEADERS: usize = 3;

/// The first and the number of the ports that are free for private use, from which RFC 7348,
/// section 5, asks to take source ports.
const FIRST_PORT: u16 = 49152;

const PORTS: u32 = 16384;

/// The source port of pushed encapsulations, by which a flow's packets take one way.
fn source_port(edited: &Stack) -> u16
    ensures { result ≡ bytes.source_port edited.now }
{
    FIRST_PORT + (flow_sum(edited) % PORTS) as u16
}

/// The outermost IPv4 total length where so many encapsulations are pushed; 0 where none is.
fn outer_total(pushes: u8, len: usize) -> u32
    requires few { pushes ≤ 2 }
    requires short { len ≤ 65600 }
    ensures { result ≡ total_over pushes len }
{
    match pushes {
        0 => 0,
        1 => 36 + len as u32,
        _ => 86 + len as u32,
    }
}

/// The headers of the first encapsulations of a stack.
fn outer(stack: &Stack, encaps: u8) -> &[Header]
    requires { encaps ≤ shape.encaps stack.now }
    ensures all { result.now ≡ take (3 * encaps) stack.now }
    ensures whole { AreEncaps result.now }
    ensures count { shape.encaps result.now ≡ encaps }
{
    let before = ENCAP_HEADERS * usize::from(encaps);
    &stack.headers()[..before]
}

/// Writes the first encapsulations of a stack in front of the frame that stands behind their room. Where there is none, no source port
/// is made.
#[inline(always)]
#[tactic(auto, using(crate::proofs::Edits::none_pushed))]
fn push_encaps(out: &mut [u8], edited: &Stack, pushes: u8)
    requires few { pushes ≤ encaps edited.now }
    requires room { 50 * pushes ≤ length out.old }
    requires fits { 0 < pushes → length out.old ≤ 65549 }
    ensures { out.new ≡ pushed (bytes.source_port edited.now) (take (3 * pushes) edited.now) (drop (50 * pushes) out.old) }
{
    if pushes > 0 {
        write_encaps(out, source_port(edited), outer(edited, pushes));
    }
}

/// Fills `out` with the changed levels behind pushed encapsulations.
fn write(out: &mut [u8], levels: &Levels<'_>, from: &[Header], edited: &Stack, pushes: u8)
    requires stand { Stand from.now levels.now }
    requires alike { AreLike from.now (inner edited.now) }
    requires few { pushes ≤ encaps edited.now }
    requires room { length out.old ≡ 50 * pushes + length levels.now.first.bytes.now }
    requires fits { 0 < pushes → length out.old ≤ 65549 }
    ensures { out.new ≡ pushed (bytes.source_port edited.now) (take (3 * pushes) edited.now) (levels_changed from.now (inner edited.now) (levels_of levels.now)) }
{
    let room = ENCAP_LEN * usize::from(pushes);
    out[room..].copy_from_slice(levels.first.bytes);
    change_levels(&mut out[room..], levels, from, edited.inner());
    push_encaps(out, edited, pushes);
}

/// Writes the stack that a transposition makes of one that it fits.
fn edit(stack: &Stack, by: &Transposition, out: &mut Stack)
    requires { IsTrue (fits by.now stack.now) }
    ensures done { out.new ≡ apply by.now stack.now }
    ensures edit { IsEdit stack.now out.new (kept by.now) }
{
    // Both calls tell of what their type keeps: a stack's shape, and the order of a transposition's acts.
    let (_headers, _acts) = (stack.headers(), by.acts());
    by.apply_to(stack, out);
}

/// Writes the bytes of a frame, as its headers were edited, at the front of `out`, and answers their number.
/// So many of its encapsulations were kept; others are dropped with what surrounds their inner frame. In
/// the inner frame addresses and ports are written over the old ones, and checksums are updated (RFC 1624).
/// An encapsulation that stays keeps all but its UDP checksum, which is 0 where an inner field differs.
/// Pushed encapsulations stand in front (RFC 7348, section 5).
///
/// `Long` tells the outermost IPv4 total length where it is above what its field can say.
pub fn rewrite_to(
    frame: &Frame<'_>,
    edited: &Stack,
    kept: u8,
    out: &mut [u8],
) -> Result<usize, Long>
    requires edit { IsEdit (parts frame.now).stack edited.now kept }
    requires room { 65700 ≤ length out.old }
    ensures answer { result ≡ answer (parts frame.now) edited.now kept }
    ensures size { IfOk result (λ len. len ≡ outgoing_size (parts frame.now) edited.now kept) }
    ensures written { OnOk result (out.new ≡ over (outgoing (parts frame.now) edited.now kept) out.old) }
    ensures unchanged { OnErr result (out.new ≡ out.old) }
{
    let stack = frame.stack();
    let levels = levels_without(&all_levels(frame), stack.encaps() - kept);
    let pushes = edited.encaps() - kept;
    let len = levels.first.bytes.len();
    let total = outer_total(pushes, len);
    if total > TOTAL_MAX {
        return Err(Long { total });
    }
    let end = ENCAP_LEN * usize::from(pushes) + len;
    write(&mut out[..end], &levels, stack.inner(), edited, pushes);
    Ok(end)
}

/// Writes the bytes of a frame, as the transposition makes its headers: see `rewrite_to`.
pub fn rewrite(frame: &Frame<'_>, by: &Transposition, out: &mut [u8]) -> Result<usize, Long>
    requires fits { IsTrue (fits by.now (parts frame.now).stack) }
    requires room { 65700 ≤ length out.old }
    ensures answer { result ≡ answer (parts frame.now) (apply by.now (parts frame.now).stack) (kept by.now) }
    ensures size { IfOk result (λ len. len ≡ outgoing_size (parts frame.now) (apply by.now (parts frame.now).stack) (kept by.now)) }
    ensures written { OnOk result (out.new ≡ over (outgoing (parts frame.now) (apply by.now (parts frame.now).stack) (kept by.now)) out.old) }
    ensures unchanged { OnErr result (out.new ≡ out.old) }
{
    let stack = frame.stack();
    let mut edited = Stack::room();
    edit(stack, by, &mut edited);
    rewrite_to(frame, &edited, by.kept(), out)
}
