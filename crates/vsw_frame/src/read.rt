//! Reading whole frames.

ghost use Rattle.std.specs.Prelude.{◌≡◌, ◌≤◌, Ok, IfOk, OnOk, IsTrue, length};
ghost use Rattle.vsw_base.specs.Frame.{frame_of};
ghost use Rattle.vsw_frame.specs.Frame.{parts, seen};
ghost use Rattle.vsw_frame.specs.Seen.{Finds, IsShort, found_parts, size_of};
ghost use Rattle.vsw_frame.specs.Tiles.{Tiles};

use crate::found::{Found, find};
use crate::frame::{Frame, FrameRoom, Level};
use vsw_base::{BadFrame, Headers, Sizes, Stack, Writes};

/// Bytes of the longest frame that is read.
const FRAME_MAX: usize = 65_600;

/// Encapsulations that are looked for.
const ENCAPS_MAX: u8 = 2;

/// The headers of a frame that was read, to be copied into its stack.
#[derive(Drop)]
struct Given<'a> {
    headers: &'a Headers,
}

impl Writes for Given<'_> {
    ghost gives = { λ g. g.headers.now };

    ghost is_ready = { λ g. Unit {0} };

    #[inline(always)]
    fn write(&self, out: &mut Headers) {
        out.copy_from(self.headers);
    }
}

#[inline(always)]
fn size(level: &Option<Level<'_>>) -> u32
    requires { IsShort 65600 level.now }
    ensures { result ≡ size_of level.now }
{
    match level {
        None => 0,
        Some(level) => level.bytes.len() as u32,
    }
}

#[inline(always)]
#[tactic(auto, using(crate::proofs::Finds::sizes_are, crate::proofs::Within::within_stack, crate::proofs::Finds::shorter))]
fn framed<'a>(
    bytes: &'a [u8],
    headers: &Headers,
    found: &Found<'a>,
    stack: &'a mut Stack,
) -> Frame<'a>
    requires finds { Finds 2 bytes.now headers.now found.now }
    requires read { frame_of bytes.now ≡ Ok (found_parts headers.now found.now) }
    ensures same { parts result ≡ found_parts headers.now found.now }
{
    stack.rewrite(&Given { headers });
    Frame {
        stack,
        control: found.control,
        sizes: Sizes {
            whole: found.first.bytes.len() as u32,
            one: size(&found.second),
            two: size(&found.third),
        },
        first: found.first,
        second: found.second,
        third: found.third,
        payload: found.payload,
    }
}

/// Reads a frame, or names its first fault: at most two VXLAN encapsulations outermost, then Ethernet,
/// IPv4 or IPv6 where the type says so, and the ports of an unfragmented TCP or UDP packet. UDP over IPv4 to
/// port 4789 with at least 8 bytes of payload and the I flag is VXLAN; beyond the second encapsulation, and
/// over IPv6, it is plain UDP. Checksums aren't looked at. The headers are put into the room.
#[inline(always)]
pub fn read_frame<'a>(bytes: &'a [u8], room: &'a mut FrameRoom) -> Result<Frame<'a>, BadFrame>
    ensures parts { seen result ≡ frame_of bytes.now }
    ensures short { OnOk result (length bytes.now ≤ 65600) }
    ensures tiles { IfOk result (λ f. Tiles bytes.now (parts f)) }
{
    if bytes.len() > FRAME_MAX {
        return Err(BadFrame::TooLong);
    }
    room.headers.clear();
    match find(ENCAPS_MAX, bytes, &mut room.headers) {
        Ok(found) => Ok(framed(bytes, &room.headers, &found, &mut room.stack)),
        Err(fault) => Err(fault),
    }
}
