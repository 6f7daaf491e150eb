//! Whether headers differ in a field that is written.

ghost use Rattle.std.specs.Prelude.{◌≡◌};
ghost use Rattle.vsw_frame.specs.Differ as headers;

use vsw_base::Header;

#[inline(always)]
fn is_same(header: &Header, other: &Header) -> bool
    ensures { result ≡ headers.is_same header.now other.now }
{
    match (header, other) {
        (
            Header::Ether { dst, src, kind },
            Header::Ether {
                dst: to_dst,
                src: to_src,
                kind: to_kind,
            },
        ) => dst == to_dst && src == to_src && kind == to_kind,
        (
            Header::Ip {
                src,
                dst,
                proto,
                ..
            },
            Header::Ip {
                src: to_src,
                dst: to_dst,
                proto: to_proto,
                ..
            },
        ) => src == to_src && dst == to_dst && proto == to_proto,
        (Header::Vxlan { vni }, Header::Vxlan { vni: to }) => vni == to,
        (
            Header::Ports { proto, src, dst },
            Header::Ports {
                proto: to_proto,
                src: to_src,
                dst: to_dst,
            },
        ) => proto == to_proto && src == to_src && dst == to_dst,
        (
            Header::Six { src, dst, proto },
            Header::Six {
                src: to_src,
                dst: to_dst,
                proto: to_proto,
            },
        ) => src == to_src && dst == to_dst && proto == to_proto,
        (
            Header::Ether { .. },
            Header::Ip { .. } | Header::Vxlan { .. } | Header::Ports { .. } | Header::Six { .. },
        )
        | (
            Header::Ip { .. },
            Header::Ether { .. } | Header::Vxlan { .. } | Header::Ports { .. } | Header::Six { .. },
        )
        | (
            Header::Vxlan { .. },
            Header::Ether { .. } | Header::Ip { .. } | Header::Ports { .. } | Header::Six { .. },
        )
        | (
            Header::Ports { .. },
            Header::Ether { .. } | Header::Ip { .. } | Header::Vxlan { .. } | Header::Six { .. },
        )
        | (
            Header::Six { .. },
            Header::Ether { .. } | Header::Ip { .. } | Header::Vxlan { .. } | Header::Ports { .. },
        ) => false,
    }
}

/// Whether the headers differ in their number, or in a field. Whether a packet is a fragment is no field of
/// its own, and isn't compared.
pub fn differ(from: &[Header], to: &[Header]) -> bool
    ensures value { result ≡ headers.differ from.now to.now }
{
    match from {
        [] => !to.is_empty(),
        [header, from @ ..] => match to {
            [] => true,
            [other, to @ ..] => !is_same(header, other) || differ(from, to),
        },
    }
}
