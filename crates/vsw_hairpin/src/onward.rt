//! Whether a packet that left a port is for another port of the switch.

ghost use Rattle.std.specs.Prelude.{◌≡◌, ◌≢◌, ◌≤◌, ◌<◌, IfSome, length, map, option_and_then, option_map, option_to_list};
ghost use Rattle.vsw_base.specs.Shape.{destination_of, inner};
ghost use Rattle.vsw_header.specs.PortChoice.{in_of, place_of};
ghost use Rattle.vsw_promise.specs.Jobs.{handed_on, hop_of, if_other};
ghost use Rattle.vsw_report.specs.declared.told.What.TheVariants as what;
ghost use Rattle.vsw_hairpin.specs.Hops.{hop_in};

use vsw_base::{Dir, Fate, Header, Mac, Place, Stack};
use vsw_frame::{Frame, FrameRoom, read_frame};

/// The innermost destination address.
fn destination(stack: &Stack) -> Option<Mac>
    ensures { result ≡ destination_of (inner stack.now) }
{
    match stack.inner() {
        [Header::Ether { dst, .. }, ..] => Some(*dst),
        []
        | [
            Header::Ip { .. } | Header::Vxlan { .. } | Header::Ports { .. } | Header::Six { .. },
            ..
        ] => None,
    }
}

/// The first place of an address among those of the ports.
fn position(macs: &[Mac], address: Mac) -> Option<usize>
    ensures found { result ≡ place_of macs.now address }
    ensures within { IfSome result (λ place. place < length macs.now) }
{
    macs.iter().position(|mac| *mac == address)
}

/// The port that has a frame's innermost destination address, if it is another one than the frame left.
pub fn local(macs: &[Mac], from: u32, stack: &Stack) -> Option<u32>
    requires few { length macs.now ≤ 16 }
    ensures value { result ≡ option_and_then (if_other from) (in_of macs.now stack.now) }
    ensures within { IfSome result (λ port. port < length macs.now) }
    ensures other { IfSome result (λ port. port ≢ from) }
{
    let address = destination(stack)?;
    let port = position(macs, address)? as u32;
    if port == from { None } else { Some(port) }
}

/// Bytes that left a port, as a frame for another, if they are one.
fn hop<'b>(
    macs: &[Mac],
    from: u32,
    bytes: &'b [u8],
    headers: &'b mut FrameRoom,
) -> Option<(u32, Frame<'b>)>
    requires few { length macs.now ≤ 16 }
    ensures value { option_map hop_in result ≡ hop_of macs.now from bytes.now }
    ensures other { IfSome result (λ r. (r.0 < length macs.now) × (r.0 ≢ from)) }
{
    match read_frame(bytes, headers) {
        Err(_) => None,
        Ok(frame) => match local(macs, from, frame.stack()) {
            None => None,
            Some(port) => Some((port, frame)),
        },
    }
}

/// A packet that came to a place, had this fate and left these bytes, as a frame for another of the ports that have these addresses, with that port's
/// place. Where there are no such ports nothing is read.
pub fn hand_on<'b>(
    macs: &[Mac],
    place: Place,
    fate: Fate,
    bytes: &'b [u8],
    headers: &'b mut FrameRoom,
) -> Option<(u32, Frame<'b>)>
    requires few { length macs.now ≤ 16 }
    ensures value { map hop_in (option_to_list result) ≡ handed_on macs.now place (what.Fate fate bytes.now) }
    ensures other { IfSome result (λ r. (r.0 < length macs.now) × (r.0 ≢ place.port)) }
{
    if macs.is_empty() {
        return None;
    }
    match fate {
        Fate::Drop(_) => None,
        Fate::Pass { .. } => match place.dir {
            Dir::In => None,
            Dir::Out => hop(macs, place.port, bytes, headers),
        },
    }
}
