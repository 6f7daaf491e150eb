//! The policy that the workload runs under.

ghost use Rattle.std.specs.Prelude.{◌≡◌};
ghost use Rattle.vsw_generate.specs.Policy.{policy_text};

/// Two controllers and one port, of the machine that asks. The first layer drops what goes to 10.0.3.0/24 and lets all else out, with its
/// answers; the second puts it in network 5001, and takes answers out of it.
const POLICY: &str = concat!(
    r#"{"version":1,"controllers":[1,2],"ports":[{"port":1,"mac":"02:00:00:00:00:01","rows":1024,"layers":["#,
    r#"{"controller":1,"layer":10,"order":1,"default_out":"drop","default_in":"drop","pairs":1000,"idle":240,"linger":10,"#,
    r#""groups":[{"group":1,"dir":"out","when":[],"rules":["#,
    r#"{"rule":1,"priority":10,"when":[{"field":"dst_ip","any":["10.0.3.0/24"]}],"action":"drop","stateful":false,"last":false},"#,
    r#"{"rule":2,"priority":20,"when":[],"action":"allow","stateful":true,"last":false}]}]},"#,
    r#"{"controller":2,"layer":30,"order":3,"default_out":"drop","default_in":"drop","pairs":1000,"idle":240,"linger":10,"#,
    r#""groups":[{"group":1,"dir":"out","when":[],"rules":["#,
    r#"{"rule":1,"priority":10,"when":[{"field":"dst_ip","any":["10.0.0.0/16"]}],"#,
    r#""action":{"decap":false,"set":{},"encap":{"dst_mac":"02:00:00:00:0a:02","src_mac":"02:00:00:00:0a:01","src_ip":"172.16.0.1","dst_ip":"172.16.0.2","vni":5001}},"stateful":false,"last":false}]},"#,
    r#"{"group":2,"dir":"in","when":[],"rules":["#,
    r#"{"rule":1,"priority":10,"when":[{"field":"vni","any":[5001]}],"#,
    r#""action":{"decap":true,"set":{},"encap":null},"stateful":false,"last":false}]}]}]}]}"#,
);

#[tactic(auto, unfolding(crate::specs::Policy::policy_text))]
pub(crate) fn policy() -> &'static [u8]
    ensures { result.now ≡ policy_text }
{
    POLICY.as_bytes()
}
