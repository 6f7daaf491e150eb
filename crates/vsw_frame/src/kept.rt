//! What a kept encapsulation says of what is in it.

ghost use Rattle.std.specs.Prelude.{◌≡◌, ◌≤◌, length};
ghost use Rattle.vsw_frame.specs.Kept as kept;
ghost use Rattle.vsw_frame.specs.Kept.{udp_kept};

use vsw_header::{header_len, uncheck_udp};

/// Bytes of an Ethernet header.
const ETHER_LEN: usize = 14;

/// Where UDP stands in an encapsulation's bytes: behind Ethernet and IPv4 with its options.
pub fn udp_at(bytes: &[u8]) -> usize
    requires room { 15 ≤ length bytes.now }
    ensures value { result ≡ kept.udp_at bytes.now }
    ensures small { result ≤ 74 }
{
    ETHER_LEN + header_len(&bytes[ETHER_LEN..])
}

/// Takes the checksum from UDP and VXLAN headers if the frame in them is changed. Without one they are as
/// RFC 7348, section 5, asks for.
pub fn change_udp_vxlan(bytes: &mut [u8], is_changed: bool)
    requires room { 8 ≤ length bytes.old }
    ensures changed { bytes.new ≡ udp_kept is_changed bytes.old }
{
    if is_changed {
        uncheck_udp(bytes);
    }
}
