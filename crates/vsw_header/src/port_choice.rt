//! The port that a packet is at.

ghost use Rattle.std.specs.Prelude.{◌≡◌, ◌<◌, ◌^◌, length, IfSome, option_and_then};
ghost use Rattle.vsw_base.specs.Shape.{destination_of, source_of};
ghost use Rattle.vsw_header.specs.PortChoice.{place_of, choose};

use vsw_base::{Dir, Header, Mac, Place, Stack};

fn source(headers: &[Header]) -> Option<Mac>
    ensures { result ≡ source_of headers.now }
{
    match headers {
        [Header::Ether { src, .. }, ..] => Some(*src),
        []
        | [
            Header::Ip { .. } | Header::Vxlan { .. } | Header::Ports { .. } | Header::Six { .. },
            ..
        ] => None,
    }
}

fn destination(headers: &[Header]) -> Option<Mac>
    ensures { result ≡ destination_of headers.now }
{
    match headers {
        [Header::Ether { dst, .. }, ..] => Some(*dst),
        []
        | [
            Header::Ip { .. } | Header::Vxlan { .. } | Header::Ports { .. } | Header::Six { .. },
            ..
        ] => None,
    }
}

fn position(macs: &[Mac], address: Mac) -> Option<usize>
    ensures found { result ≡ place_of macs.now address }
    ensures within { IfSome result (λ place. place < length macs.now) }
{
    macs.iter().position(|mac| *mac == address)
}

fn place(macs: &[Mac], address: Option<Mac>) -> Option<u32>
    requires { length macs.now < 2 ^ 32 }
    ensures found { result ≡ option_and_then (place_of macs.now) address }
    ensures within { IfSome result (λ place. place < length macs.now) }
{
    match address {
        None => None,
        Some(address) => match position(macs, address) {
            None => None,
            Some(place) => Some(place as u32),
        },
    }
}

/// The port of a packet among ports with these addresses: outbound at the one that has the outermost
/// source address, else inbound at the one that has the innermost destination address; `None` where
/// neither is a port's. Of equal addresses the first counts.
#[inline(always)]
pub fn choose_port(macs: &[Mac], stack: &Stack) -> Option<Place>
    requires { length macs.now < 2 ^ 32 }
    ensures found { result ≡ choose macs.now stack.now }
    ensures within { IfSome result (λ place. place.port < length macs.now) }
{
    if let Some(port) = place(macs, source(stack.headers())) {
        return Some(Place {
            port,
            dir: Dir::Out,
        });
    }
    let port = place(macs, destination(stack.inner()))?;
    Some(Place { port, dir: Dir::In })
}
