//! Headers: Ethernet, IPv4, IPv6, TCP, UDP and VXLAN, the internet checksums in them, and the identities and keys by which they tell a flow.
#![tactic(auto)]

mod ether;
mod ether_law;
mod flow_law;
mod flow_sums;
mod identity;
mod ip;
mod ip6;
mod ip6_change;
mod ip_change;
mod ip_examples;
mod ip_law;
mod key;
mod l4_change;
mod l4_examples;
mod l4_law;
mod port_choice;
mod sum;
mod sum_change;
mod sum_law;
mod tcp;
mod udp;
mod vxlan;

pub use ether::{EtherPart, change_ether, read_ether, write_ether};
pub use ether_law::ether_laws;
pub use flow_law::flow_laws;
pub use flow_sums::{flow_sum, spread};
pub use identity::{same_id, same_key, ufid};
pub use ip::{IpPart, header_len, read_ip, write_ip};
pub use ip_change::change_ip;
pub use ip_examples::ip_vectors;
pub use ip_law::ip_laws;
pub use ip6::{Ip6Part, read_ip6};
pub use ip6_change::change_ip6;
pub use key::{blank_key, key_of, mirror, write_key};
pub use l4_change::{Addresses, Endpoints, change_tcp, change_udp, uncheck_udp};
pub use l4_examples::l4_vectors;
pub use l4_law::l4_laws;
pub use port_choice::choose_port;
pub use sum::{fresh, pseudo};
pub use sum_change::update;
pub use sum_law::sum_laws;
pub use tcp::{TcpPart, read_tcp};
pub use udp::{UdpPart, read_udp};
pub use vxlan::{read_vxlan, write_udp_vxlan};
