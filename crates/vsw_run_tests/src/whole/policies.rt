//! Policies of port 1, in pieces.

/// Port 1 of one controller, up to its layers, and of three.
pub const PORT: &str =
    r#"{"version":1,"controllers":[1],"ports":[{"port":1,"mac":"02:00:00:00:00:01","rows":64,"layers":["#;

const PORT_OF_THREE: &str =
    r#"{"version":1,"controllers":[1,2,3],"ports":[{"port":1,"mac":"02:00:00:00:00:01","rows":64,"layers":["#;

/// The same port in a policy of version 2.
pub const PORT_OF_2: &str =
    r#"{"version":2,"controllers":[1],"ports":[{"port":1,"mac":"02:00:00:00:00:01","rows":64,"layers":["#;

/// What stands after the layers of the only port.
pub const END: &str = "]}]}";

/// The end of port 1's layers, and port 2 up to its layers.
pub const BETWEEN_PORTS: &str = r#"]},{"port":2,"mac":"02:00:00:00:00:99","rows":64,"layers":["#;

/// Layer 10 of controller 1, up to its groups.
pub const LAYER: &str =
    r#"{"controller":1,"layer":10,"order":1,"default_out":"drop","default_in":"drop","pairs":100,"idle":240,"linger":10,"groups":["#;

/// What stands after the groups of a layer.
pub const LAYER_END: &str = "]}";

/// Group 1 of layer 10: rule 5 lets packets to 10.0.0.0/24 go out.
pub const ALLOWING: &str =
    r#"{"group":1,"dir":"out","when":[],"rules":[{"rule":5,"priority":10,"when":[{"field":"dst_ip","any":["10.0.0.0/24"]}],"action":"allow","stateful":false,"last":false}]}"#;

/// The same, where rule 5 is marked last.
pub const LAST: &str =
    r#"{"group":1,"dir":"out","when":[],"rules":[{"rule":5,"priority":10,"when":[{"field":"dst_ip","any":["10.0.0.0/24"]}],"action":"allow","stateful":false,"last":true}]}"#;

/// A second outbound group, whose rule 7 drops packets to 10.0.0.9; and one that looks only at those
/// to TCP or UDP port 80.
pub const DROPPING: &str =
    r#",{"group":2,"dir":"out","when":[],"rules":[{"rule":7,"priority":10,"when":[{"field":"dst_ip","any":["10.0.0.9"]}],"action":"drop","stateful":false,"last":false}]}"#;

pub const DROPPING_80: &str =
    r#",{"group":2,"dir":"out","when":[{"field":"dst_port","any":[80]}],"rules":[{"rule":7,"priority":10,"when":[{"field":"dst_ip","any":["10.0.0.9"]}],"action":"drop","stateful":false,"last":false}]}"#;

/// Rules 5 and 6 of one priority and one condition, which allow and drop, in either order.
pub const TWO_RULES: &str =
    r#"{"group":1,"dir":"out","when":[],"rules":[{"rule":5,"priority":10,"when":[{"field":"dst_ip","any":["10.0.0.0/24"]}],"action":"allow","stateful":false,"last":false},{"rule":6,"priority":10,"when":[{"field":"dst_ip","any":["10.0.0.0/24"]}],"action":"drop","stateful":false,"last":false}]}"#;

pub const TWO_RULES_TURNED: &str =
    r#"{"group":1,"dir":"out","when":[],"rules":[{"rule":6,"priority":10,"when":[{"field":"dst_ip","any":["10.0.0.0/24"]}],"action":"drop","stateful":false,"last":false},{"rule":5,"priority":10,"when":[{"field":"dst_ip","any":["10.0.0.0/24"]}],"action":"allow","stateful":false,"last":false}]}"#;

/// One group, whose only rule keeps the state of each flow.
pub const STATEFUL: &str =
    r#"{"group":1,"dir":"out","when":[],"rules":[{"rule":1,"priority":10,"when":[],"action":"allow","stateful":true,"last":false}]}"#;

/// The same of inbound packets.
pub const STATEFUL_IN: &str =
    r#"{"group":1,"dir":"in","when":[],"rules":[{"rule":1,"priority":10,"when":[],"action":"allow","stateful":true,"last":false}]}"#;

/// A rule that wraps what goes out, and one that takes an encapsulation from what comes in.
pub const TUNNELLING: &str =
    r#"{"group":1,"dir":"out","when":[],"rules":[{"rule":1,"priority":10,"when":[],"action":{"decap":false,"set":{},"encap":{"dst_mac":"02:00:00:00:0a:02","src_mac":"02:00:00:00:0a:01","src_ip":"172.16.0.1","dst_ip":"172.16.0.2","vni":5001}},"stateful":false,"last":false}]}"#;

pub const UNTUNNELLING: &str =
    r#"{"group":1,"dir":"in","when":[],"rules":[{"rule":1,"priority":10,"when":[],"action":{"decap":true,"set":{},"encap":null},"stateful":false,"last":false}]}"#;

/// A rule that sends all packets from 192.0.2.7:40000.
pub const SETTING: &str =
    r#"{"group":1,"dir":"out","when":[],"rules":[{"rule":1,"priority":10,"when":[],"action":{"decap":false,"set":{"src_ip":"192.0.2.7","src_port":40000},"encap":null},"stateful":false,"last":false}]}"#;

/// All packets go out, and those that come to 203.0.113.4 are told from others by their flow.
pub const TURNING: &str =
    r#"{"group":1,"dir":"out","when":[],"rules":[{"rule":1,"priority":10,"when":[],"action":"allow","stateful":false,"last":false}]},{"group":2,"dir":"in","when":[],"rules":[{"rule":2,"priority":10,"when":[{"field":"dst_ip","any":["203.0.113.4"]}],"action":{"decap":false,"set":{"dst_ip":"10.0.0.5","dst_port":1234},"encap":null},"stateful":true,"last":false}]}"#;

/// A rule that sends packets over IPv6 from port 40000, and keeps the state of each flow.
pub const SETTING_PORT: &str =
    r#"{"group":1,"dir":"out","when":[],"rules":[{"rule":1,"priority":10,"when":[{"field":"kind","any":[34525]}],"action":{"decap":false,"set":{"src_port":40000},"encap":null},"stateful":true,"last":false}]}"#;

/// A rule that sends packets to fd00::/64 from fd00::77, and keeps the state of each flow.
pub const HIDING: &str =
    r#"{"group":1,"dir":"out","when":[],"rules":[{"rule":1,"priority":10,"when":[{"field":"dst_ip6","any":["fd00::/64"]}],"action":{"decap":false,"set":{"src_ip6":"fd00::77"},"encap":null},"stateful":true,"last":false}]}"#;

/// A second outbound group, without rules.
pub const EMPTY_GROUP: &str = r#",{"group":2,"dir":"out","when":[],"rules":[]}"#;

/// Layers 10 and 20, which both take an encapsulation from what comes in.
pub const UNWRAPPING: &str =
    r#"{"controller":1,"layer":10,"order":1,"default_out":"drop","default_in":"drop","pairs":100,"idle":240,"linger":10,"groups":[{"group":1,"dir":"in","when":[],"rules":[{"rule":1,"priority":10,"when":[],"action":{"decap":true,"set":{},"encap":null},"stateful":false,"last":false}]}]},{"controller":1,"layer":20,"order":2,"default_out":"drop","default_in":"drop","pairs":100,"idle":240,"linger":10,"groups":[{"group":1,"dir":"in","when":[],"rules":[{"rule":1,"priority":10,"when":[],"action":{"decap":true,"set":{},"encap":null},"stateful":false,"last":false}]}]}"#;

/// Three controllers' layers, up to the limit on pairs of the first, and from there to the end: layer 10
/// keeps the state of each flow, layer 20 gives 10.0.0.5 another address and port, and layer 30 wraps what
/// goes out to 10.0.0.0/16.
const LAYER_10: &str =
    r#"{"controller":1,"layer":10,"order":1,"default_out":"drop","default_in":"drop","pairs":"#;

const LAYERS_20_30: &str = concat!(
    r#","idle":240,"linger":10,"groups":[{"group":1,"dir":"out","when":[],"rules":[{"rule":1,"priority":10,"when":[],"action":"allow","stateful":true,"last":false}]}]},"#,
    r#"{"controller":2,"layer":20,"order":2,"default_out":"drop","default_in":"drop","pairs":100,"idle":240,"linger":10,"groups":[{"group":1,"dir":"out","when":[],"rules":[{"rule":1,"priority":10,"when":[{"field":"src_ip","any":["10.0.0.5"]}],"action":{"decap":false,"set":{"src_ip":"192.0.2.7","src_port":40000},"encap":null},"stateful":true,"last":false}]}]},"#,
    r#"{"controller":3,"layer":30,"order":3,"default_out":"drop","default_in":"drop","pairs":100,"idle":240,"linger":10,"groups":[{"group":1,"dir":"out","when":[],"rules":[{"rule":1,"priority":10,"when":[{"field":"dst_ip","any":["10.0.0.0/16"]}],"action":{"decap":false,"set":{},"encap":{"dst_mac":"02:00:00:00:0a:02","src_mac":"02:00:00:00:0a:01","src_ip":"172.16.0.1","dst_ip":"172.16.0.2","vni":5001}},"stateful":false,"last":false}]},"#,
    r#"{"group":2,"dir":"in","when":[],"rules":[{"rule":1,"priority":10,"when":[{"field":"vni","any":[5001]}],"action":{"decap":true,"set":{},"encap":null},"stateful":false,"last":false}]}]}"#,
);

pub const THREE_LAYERS: &[&str] = &[PORT_OF_THREE, LAYER_10, "100", LAYERS_20_30, END];

/// The same, where layer 10 keeps one flow at most.
pub const ONE_PAIR: &[&str] = &[PORT_OF_THREE, LAYER_10, "1", LAYERS_20_30, END];

/// Layer 10 keeps flows for 100 seconds, and for 10 once they are closed.
pub const IDLE_100: &str =
    r#"{"controller":1,"layer":10,"order":1,"default_out":"drop","default_in":"drop","pairs":100,"idle":100,"linger":10,"groups":["#;
