//! What a rule does.

ghost use Rattle.std.specs.Prelude.{◌≡◌, ◌<◌, ◌^◌, Ok};
ghost use Rattle.serde_json.specs.View.{view};
ghost use Rattle.vsw_config.specs.Fault.{Says};
ghost use Rattle.vsw_config.specs.Action.{set_of, headers_of, outer_of, encap_of, edit_of, action_for, action_of};
ghost use Rattle.vsw_config.specs.Action as spec;

use crate::{
    Fault, Ip4Reader, Ip6Reader, Kind, MacReader, ReadValue, ShortReader, TruthReader, Word, here,
    member, member_if, number_in, object_in,
};
use serde_json::Value;
use std::alloc::Global;
use vsw_base::{Ip4, Mac, Outer, Set};
use vsw_rule::Action;

const SET_WORDS: [Word; 6] = [
    Word::DstMac,
    Word::SrcMac,
    Word::SrcIp,
    Word::DstIp,
    Word::SrcPort,
    Word::DstPort,
];

const SET_WORDS6: [Word; 8] = [
    Word::DstMac,
    Word::SrcMac,
    Word::SrcIp,
    Word::DstIp,
    Word::SrcPort,
    Word::DstPort,
    Word::SrcIp6,
    Word::DstIp6,
];

/// The names of what an edit may write, in a file of this version.
fn set_words(version: u8) -> &'static [Word]
    ensures { result.now ≡ spec.set_words version }
{
    if version == 2 {
        &SET_WORDS6
    } else {
        &SET_WORDS
    }
}

const ENCAP_WORDS: [Word; 5] = [
    Word::DstMac,
    Word::SrcMac,
    Word::SrcIp,
    Word::DstIp,
    Word::Vni,
];

/// The greatest VNI.
const MOST_VNI: u32 = 0xff_ffff;

/// Reads the fields that an edit writes.
#[derive(Drop)]
struct SetReader {
    version: u8,
}

impl ReadValue<Set> for SetReader {
    ghost value_of = { λ reader. set_of reader.version };

    #[tactic(auto, unfolding(crate::specs::Action::set_of))]
    fn value(&self, alloc: Global, value: &Value) -> Result<Set, Fault> {
        let object = object_in(alloc, set_words(self.version), value)?;
        let dst_mac = member_if(alloc, object, Word::DstMac, &MacReader)?;
        let src_mac = member_if(alloc, object, Word::SrcMac, &MacReader)?;
        let src_ip = member_if(alloc, object, Word::SrcIp, &Ip4Reader)?;
        let dst_ip = member_if(alloc, object, Word::DstIp, &Ip4Reader)?;
        let src_port = member_if(alloc, object, Word::SrcPort, &ShortReader)?;
        let dst_port = member_if(alloc, object, Word::DstPort, &ShortReader)?;
        let src_ip6 = member_if(alloc, object, Word::SrcIp6, &Ip6Reader)?;
        let dst_ip6 = member_if(alloc, object, Word::DstIp6, &Ip6Reader)?;
        Ok(Set {
            dst_mac,
            src_mac,
            src_ip,
            dst_ip,
            src_port,
            dst_port,
            src_ip6,
            dst_ip6,
        })
    }
}

fn headers(dst_mac: Mac, src_mac: Mac, src_ip: Ip4, dst_ip: Ip4, vni: u32) -> Outer
    requires { vni < 2 ^ 24 }
    ensures { headers_of dst_mac src_mac src_ip dst_ip vni ≡ Ok result }
{
    Outer {
        dst_mac,
        src_mac,
        src_ip,
        dst_ip,
        vni,
    }
}

#[tactic(auto, unfolding(crate::specs::Action::outer_of))]
fn outer(alloc: Global, value: &Value) -> Result<Outer, Fault>
    ensures { Says result (outer_of (view value.now)) }
{
    let object = object_in(alloc, &ENCAP_WORDS, value)?;
    let dst_mac = member(alloc, object, Word::DstMac, &MacReader)?;
    let src_mac = member(alloc, object, Word::SrcMac, &MacReader)?;
    let src_ip = member(alloc, object, Word::SrcIp, &Ip4Reader)?;
    let dst_ip = member(alloc, object, Word::DstIp, &Ip4Reader)?;
    let vni = number_in(alloc, 0, MOST_VNI, object, Word::Vni)?;
    Ok(headers(dst_mac, src_mac, src_ip, dst_ip, vni))
}

/// Reads an encapsulation, or that there is none.
struct EncapReader;

impl ReadValue<Option<Outer>> for EncapReader {
    ghost value_of = { λ reader. encap_of };

    #[tactic(auto, unfolding(crate::specs::Action::encap_of))]
    fn value(&self, alloc: Global, value: &Value) -> Result<Option<Outer>, Fault> {
        if value.is_null() {
            return Ok(None);
        }
        let outer = outer(alloc, value)?;
        Ok(Some(outer))
    }
}

#[tactic(auto, unfolding(crate::specs::Action::edit_of))]
fn edit(alloc: Global, version: u8, value: &Value) -> Result<Action, Fault>
    ensures { Says result (edit_of version (view value.now)) }
{
    let object = object_in(alloc, &[Word::Decap, Word::Set, Word::Encap], value)?;
    let decap = member(alloc, object, Word::Decap, &TruthReader)?;
    let set = member(alloc, object, Word::Set, &SetReader { version })?;
    let encap = member(alloc, object, Word::Encap, &EncapReader)?;
    Ok(Action::Edit { decap, set, encap })
}

fn action_named(alloc: Global, name: &str) -> Result<Action, Fault>
    ensures { result ≡ action_for name.now }
{
    match name {
        "allow" => Ok(Action::Allow),
        "drop" => Ok(Action::Drop),
        _ => Err(here(alloc, Kind::Shape)),
    }
}

/// Reads the action of a rule.
#[derive(Drop)]
pub(crate) struct ActionReader {
    pub version: u8,
}

impl ReadValue<Action> for ActionReader {
    ghost value_of = { λ reader. action_of reader.version };

    #[tactic(auto, unfolding(crate::specs::Action::action_of))]
    fn value(&self, alloc: Global, value: &Value) -> Result<Action, Fault> {
        match value.as_str() {
            Some(name) => {
                let action = action_named(alloc, name)?;
                Ok(action)
            }
            None => {
                let action = edit(alloc, self.version, value)?;
                Ok(action)
            }
        }
    }
}
