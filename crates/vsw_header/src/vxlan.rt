//! The VXLAN header (RFC 7348, section 5): flags (1 byte), reserved (3), VNI (3), reserved (1).
//! Numbers have their highest byte first.

ghost use Rattle.std.specs.Prelude.{◌≡◌, ◌<◌, ◌≤◌, ◌+◌, ◌^◌, IfSome, drop, length, take};
ghost use Rattle.vsw_base.specs.Vxlan.{vni_of};
ghost use Rattle.vsw_header.specs.Vxlan.{udp_vxlan_bytes};

/// Bytes of a VXLAN header.
const VXLAN_LEN: usize = 8;

/// Bytes of a UDP header and a VXLAN header.
const UDP_VXLAN_LEN: usize = 16;

/// The UDP port of VXLAN (RFC 7348, section 5).
const PORT: u16 = 4789;

/// Offset of the VNI.
const VNI: usize = 4;

/// The I flag, which says that the VNI is valid.
const FLAG_VNI: u8 = 0x08;

/// The VNI of the header that the bytes begin with, if there is one. Reserved bits are ignored, as
/// the RFC asks.
#[inline(always)]
pub fn read_vxlan(bytes: &[u8]) -> Option<u32>
    ensures vni { result ≡ vni_of bytes.now }
    ensures fit { IfSome result (λ vni. vni < 2 ^ 24) }
{
    if bytes.len() < VXLAN_LEN || bytes[0] & FLAG_VNI == 0 {
        return None;
    }
    Some(u32::from_be_bytes([0, bytes[VNI], bytes[VNI + 1], bytes[VNI + 2]]))
}

/// The bytes of the UDP header, without checksum as the RFC asks, and of the VXLAN header.
fn header(src_port: u16, inner: u32, vni: u32) -> [u8; UDP_VXLAN_LEN]
    requires { inner ≤ 65519 }
    ensures bytes { result ≡ udp_vxlan_bytes src_port inner vni }
    ensures len { length result ≡ 16 }
{
    let [s0, s1] = src_port.to_be_bytes();
    let [d0, d1] = PORT.to_be_bytes();
    let [l0, l1] = ((inner + 16) as u16).to_be_bytes();
    let [_, v0, v1, v2] = vni.to_be_bytes();
    [
        s0, s1, d0, d1, l0, l1, 0, 0, FLAG_VNI, 0, 0, 0, v0, v1, v2, 0,
    ]
}

/// Writes the headers of an encapsulation at the front. `inner` counts the bytes of the frame that
/// follows them.
pub fn write_udp_vxlan(out: &mut [u8], src_port: u16, inner: u32, vni: u32)
    requires room { 16 ≤ length out.old }
    requires fits { inner ≤ 65519 }
    requires small { vni < 2 ^ 24 }
    ensures front { take 16 out.new ≡ udp_vxlan_bytes src_port inner vni }
    ensures rest { drop 16 out.new ≡ drop 16 out.old }
{
    out[..UDP_VXLAN_LEN].copy_from_slice(&header(src_port, inner, vni));
}
