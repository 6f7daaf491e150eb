//! A frame of which nothing is edited.

ghost use Rattle.std.specs.Prelude.{◌≡◌, ◌≤◌, length};
ghost use Rattle.vsw_base.specs.Shape.{encaps};
ghost use Rattle.vsw_frame.specs.Bytes.{outgoing, outgoing_size};
ghost use Rattle.vsw_frame.specs.Frame.{parts};
ghost use Rattle.vsw_frame.specs.Tiles.{outermost};
ghost use Rattle.vsw_header.specs.Sum.{AreBytes};

use crate::frame::Frame;

/// Elements of a slice of bytes are below 256.
#[inline(always)]
fn are_bytes(bytes: &[u8])
    ensures { AreBytes bytes.now }
{}

/// The bytes with which a frame leaves of which nothing is edited, and no encapsulation dropped or pushed: its own.
#[inline(always)]
pub fn own_bytes<'a>(frame: &Frame<'a>) -> &'a [u8]
    ensures bytes { result.now ≡ outermost (parts frame.now).levels }
    ensures own { outgoing (parts frame.now) (parts frame.now).stack (encaps (parts frame.now).stack) ≡ result.now }
    ensures size { outgoing_size (parts frame.now) (parts frame.now).stack (encaps (parts frame.now).stack) ≡ length result.now }
    ensures short { length result.now ≤ 65600 }
{
    let bytes = frame.first.bytes;
    are_bytes(bytes);
    bytes
}
