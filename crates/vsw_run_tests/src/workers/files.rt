//! Policies of port 1, and commands, in pieces.

/// One layer, whose rule 5 lets packets to 10.0.0.0/24 go out.
pub const ONE_LAYER: &[&str] = &[
    r#"{"version":1,"controllers":[1],"ports":[{"port":1,"mac":"02:00:00:00:00:01","rows":64,"layers":["#,
    r#"{"controller":1,"layer":10,"order":1,"default_out":"drop","default_in":"drop","pairs":100,"idle":240,"linger":10,"groups":["#,
    r#"{"group":1,"dir":"out","when":[],"rules":[{"rule":5,"priority":10,"when":[{"field":"dst_ip","any":["10.0.0.0/24"]}],"action":"allow","stateful":false,"last":false}]}]}"#,
    "]}]}",
];

/// One layer, which lets out what comes, and keeps the state of each flow for a second: a packet a quarter of that later renews it.
pub const SHORT_LIFE: &[&str] = &[
    r#"{"version":1,"controllers":[1],"ports":[{"port":1,"mac":"02:00:00:00:00:01","rows":64,"layers":["#,
    r#"{"controller":1,"layer":10,"order":1,"default_out":"drop","default_in":"drop","pairs":100,"idle":1,"linger":1,"groups":["#,
    r#"{"group":1,"dir":"out","when":[],"rules":[{"rule":5,"priority":10,"when":[],"action":"allow","stateful":true,"last":false}]}]}"#,
    "]}]}",
];

/// Layers of three controllers: layer 10 keeps the state of each flow, layer 20 gives 10.0.0.5 another address and port and keeps
/// the state, too, and layer 30 wraps what goes out to 10.0.0.0/16.
pub const THREE_LAYERS: &[&str] = &[
    r#"{"version":1,"controllers":[1,2,3],"ports":[{"port":1,"mac":"02:00:00:00:00:01","rows":64,"layers":["#,
    r#"{"controller":1,"layer":10,"order":1,"default_out":"drop","default_in":"drop","pairs":100,"idle":240,"linger":10,"groups":["#,
    r#"{"group":1,"dir":"out","when":[],"rules":[{"rule":1,"priority":10,"when":[],"action":"allow","stateful":true,"last":false}]}]},"#,
    r#"{"controller":2,"layer":20,"order":2,"default_out":"drop","default_in":"drop","pairs":100,"idle":240,"linger":10,"groups":["#,
    r#"{"group":1,"dir":"out","when":[],"rules":[{"rule":1,"priority":10,"when":[{"field":"src_ip","any":["10.0.0.5"]}],"action":{"decap":false,"set":{"src_ip":"192.0.2.7","src_port":40000},"encap":null},"stateful":true,"last":false}]}]},"#,
    r#"{"controller":3,"layer":30,"order":3,"default_out":"drop","default_in":"drop","pairs":100,"idle":240,"linger":10,"groups":["#,
    r#"{"group":1,"dir":"out","when":[],"rules":[{"rule":1,"priority":10,"when":[{"field":"dst_ip","any":["10.0.0.0/16"]}],"action":{"decap":false,"set":{},"encap":{"dst_mac":"02:00:00:00:0a:02","src_mac":"02:00:00:00:0a:01","src_ip":"172.16.0.1","dst_ip":"172.16.0.2","vni":5001}},"stateful":false,"last":false}]},"#,
    r#"{"group":2,"dir":"in","when":[],"rules":[{"rule":1,"priority":10,"when":[{"field":"vni","any":[5001]}],"action":{"decap":true,"set":{},"encap":null},"stateful":false,"last":false}]}]}"#,
    "]}]}",
];

/// Beside the packets layer 10 goes, which changes no packet's fate.
pub const REMOVES: &str =
    "{\"at\":0,\"when\":\"during\",\"controller\":1,\"port\":1,\"do\":\"remove_layer\",\"layer\":10}\n";

/// Beside the packets layer 10 gets a rule that drops all, and its pairs go.
pub const DROPS: &str =
    r#"{"at":0,"when":"during","controller":1,"port":1,"do":"put_rules","layer":10,"group":1,"rules":[{"rule":1,"priority":10,"when":[],"action":"drop","stateful":false,"last":false}]}"#;

/// Before packet 16 layer 10 lets out what no rule decides, which takes the rows away of flows that have no pair. The command before packet 17 is
/// refused: the round of packet 16 ends there.
pub const OPENS: &str = concat!(
    "{\"at\":16,\"when\":\"before\",\"controller\":1,\"port\":1,\"do\":\"set_default\",\"layer\":10,\"dir\":\"out\",\"default\":\"allow\"}\n",
    "{\"at\":17,\"when\":\"before\",\"controller\":1,\"port\":1,\"do\":\"remove_group\",\"layer\":10,\"group\":9}\n",
);

/// Before packets 100, 200 and 300 a command is refused, where a round ends.
pub const CUTS: &str = concat!(
    "{\"at\":100,\"when\":\"before\",\"controller\":1,\"port\":1,\"do\":\"remove_group\",\"layer\":10,\"group\":9}\n",
    "{\"at\":200,\"when\":\"before\",\"controller\":1,\"port\":1,\"do\":\"remove_group\",\"layer\":10,\"group\":9}\n",
    "{\"at\":300,\"when\":\"before\",\"controller\":1,\"port\":1,\"do\":\"remove_group\",\"layer\":10,\"group\":9}\n",
);
