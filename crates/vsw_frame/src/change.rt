//! Levels that are changed in place.

ghost use Rattle.std.specs.Prelude.{◌≡◌};
ghost use Rattle.vsw_frame.specs.Bytes.{levels_changed};
ghost use Rattle.vsw_frame.specs.Levels.{levels_of, Stand};

use crate::frame::Levels;
use crate::levels::within;
use crate::{change_frame, change_udp_vxlan, differ, udp_at};
use vsw_base::Header;

/// Bytes of the UDP and VXLAN headers of an encapsulation.
const UDP_VXLAN_LEN: usize = 16;

/// Changes the inner frame in place, and the encapsulations around it.
pub fn change_levels(bytes: &mut [u8], levels: &Levels<'_>, from: &[Header], to: &[Header])
    requires same { bytes.old ≡ levels.now.first.bytes.now }
    requires stand { Stand to.now levels.now }
    ensures { bytes.new ≡ levels_changed from.now to.now (levels_of levels.now) }
{
    let Some(_) = levels.second else {
        change_frame(bytes, from, to);
        return;
    };
    let inner = within(levels);
    let udp = udp_at(bytes);
    let front = udp + UDP_VXLAN_LEN;
    change_udp_vxlan(&mut bytes[udp..front], differ(from, to));
    let end = front + inner.first.bytes.len();
    change_levels(&mut bytes[front..end], &inner, from, to);
}
