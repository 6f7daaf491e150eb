//! Frames that are read and rewritten.

ghost use Rattle.std.specs.Prelude.{◌≡◌, ◌≤◌, IfSome, length};
ghost use Rattle.vsw_base.specs.Frame.{frame_of};
ghost use Rattle.vsw_frame.specs.Rewritten.{IsRewritten, length_written};

use crate::numbers::numbers_fit;
use crate::{FrameRoom, read_frame, rewrite};
use vsw_transpose::Transposition;

/// Writes what the transposition makes of the frame that these bytes are at the front of `out`, and answers
/// the number of bytes: None where they are no frame, or one that the transposition doesn't fit, or where it
/// gets too long.
pub fn rewrite_bytes(bytes: &[u8], by: &Transposition, out: &mut [u8]) -> Option<usize>
    requires room { 65700 ≤ length out.old }
    ensures exact { result ≡ length_written (frame_of bytes.now) by.now }
    ensures rewritten { IfSome result (IsRewritten bytes.now by.now out.new) }
{
    // Both calls tell of what a transposition keeps: the order of its acts, and the ranges of their numbers.
    let _acts = by.acts();
    numbers_fit(by);
    let mut room = FrameRoom::new();
    let read = read_frame(bytes, &mut room);
    let Ok(frame) = &read else {
        return None;
    };
    if !by.fits(frame.stack()) {
        return None;
    }
    match rewrite(frame, by, out) {
        Ok(len) => Some(len),
        Err(_) => None,
    }
}
