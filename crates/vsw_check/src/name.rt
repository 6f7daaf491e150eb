//! Values of a line that have a name or a number of their own.

ghost use Rattle.std.specs.Prelude.{◌≡◌, List};
ghost use Rattle.vsw_base.specs.Fault.{fault_number};
ghost use Rattle.vsw_policy.specs.Refusals.{refusal_number};
ghost use Rattle.vsw_report.specs.Words.{behind, dir_in, fault_of, mark_in, numbered, refusal_of};

use vsw_base::{BadFrame, Dir};
use vsw_policy::Refusal;

/// The first of the refusals that has this number.
fn numbered_refusal(all: &[Refusal], number: u16) -> Option<Refusal>
    ensures { result ≡ numbered refusal_number all.now number }
{
    for why in all {
        if u16::from(why.number()) == number {
            return Some(*why);
        }
    }
    None
}

/// The first of the faults that has this number.
fn numbered_fault(all: &[BadFrame], number: u16) -> Option<BadFrame>
    ensures { result ≡ numbered fault_number all.now number }
{
    for fault in all {
        if u16::from(fault.number()) == number {
            return Some(*fault);
        }
    }
    None
}

/// The refusal of this number.
pub(crate) fn refusal(number: u16) -> Option<Refusal>
    ensures { result ≡ refusal_of number }
{
    let all = [
        Refusal::NoLayer,
        Refusal::LayerExists,
        Refusal::NoGroup,
        Refusal::GroupExists,
        Refusal::NoRule,
        Refusal::RuleExists,
        Refusal::ManyLayers,
        Refusal::ManyGroups,
        Refusal::ManyRules,
        Refusal::Memory,
        Refusal::ManyParts,
        Refusal::PartTwice,
    ];
    numbered_refusal(&all, number)
}

/// The fault of this number.
pub(crate) fn fault(number: u16) -> Option<BadFrame>
    ensures { result ≡ fault_of number }
{
    let all = [
        BadFrame::ShortEther,
        BadFrame::ShortIp,
        BadFrame::IpVersion,
        BadFrame::IpLength,
        BadFrame::ShortTcp,
        BadFrame::TcpOffset,
        BadFrame::ShortUdp,
        BadFrame::UdpLength,
        BadFrame::TooLong,
        BadFrame::ShortIp6,
        BadFrame::Ip6Version,
        BadFrame::Ip6Length,
    ];
    numbered_fault(&all, number)
}

/// Whether it is an entry or a read.
pub(crate) fn mark(word: &[u8]) -> Option<bool>
    ensures { result ≡ mark_in word.now }
{
    match word {
        [b'+', ..] => Some(true),
        [b'@', ..] => Some(false),
        _ => None,
    }
}

/// What follows the mark.
pub(crate) fn behind(word: &[u8]) -> &[u8]
    ensures { result.now ≡ behind word.now }
{
    match word {
        [_, rest @ ..] => rest,
        [] => word,
    }
}

pub(crate) fn dir(word: &[u8]) -> Option<Dir>
    ensures { result ≡ dir_in word.now }
{
    if word == b"out".as_slice() {
        Some(Dir::Out)
    } else if word == b"in".as_slice() {
        Some(Dir::In)
    } else {
        None
    }
}
