//! What holds of the headers' bytes.

ghost use Rattle.vsw_header.specs.L4Right.{TcpStaysRight, TcpStaysWrong, UdpStaysRight, UdpStaysWith, UdpStaysWithout, UdpStaysWrong};
ghost use Rattle.vsw_header.specs.Vxlan.{ReadsUdpBack, ReadsVniBack};

/// The readers give back what the writer was given. A checksum that is right for a segment and its
/// endpoints is right for the new ones once they are changed; one that is wrong stays wrong; and a
/// UDP checksum of 0 stays, as no other does.
pub fn l4_laws()
    ensures udp { ReadsUdpBack }
    ensures vni { ReadsVniBack }
    ensures tcp_right { TcpStaysRight }
    ensures tcp_wrong { TcpStaysWrong }
    ensures udp_right { UdpStaysRight }
    ensures udp_wrong { UdpStaysWrong }
    ensures udp_without { UdpStaysWithout }
    ensures udp_with { UdpStaysWith }
{}
