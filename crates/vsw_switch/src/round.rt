//! Running a round.

ghost use Rattle.std.specs.Prelude.{◌≡◌, ◌<◌, ◌≤◌, ◌+◌, ◌^◌, List, length, IfOk, OnOk};
ghost use Rattle.vsw_commandfile.specs.declared.line.Line.{Line};
ghost use Rattle.vsw_port.specs.Order.{numbered};
ghost use Rattle.vsw_policy.specs.Sound.{Each};
ghost use Rattle.vsw_report.specs.Whole.{whole_text};
ghost use Rattle.vsw_switch.specs.Round.{RunsFrom};
ghost use Rattle.vsw_switch.specs.Steps as steps;
ghost use Rattle.vsw_switch.specs.Switch.{AreServed};

use crate::Switch;
use vsw_answer::Watch;
use vsw_base::NoMemory;
use vsw_commandfile::Line;
use vsw_pcap::Batch;
use vsw_promise::Schedule;
use vsw_report::RoundText;

/// Whether a command runs beside the packets, or whether it runs before them.
fn is_when(during: bool, line: &Line) -> bool
    ensures { result ≡ steps.is_when during line.now }
{
    if during { line.during } else { !line.during }
}

/// Asks the commands at these places that run beside the packets, or those that run before them.
fn ask_all(
    switch: &mut Switch,
    schedule: &Schedule,
    places: &[u32],
    during: bool,
) -> Result<(), NoMemory>
    requires served { AreServed switch.old schedule.now }
    requires places { Each (λ place. place < length schedule.now) places.now }
    ensures asked { OnOk result (steps.AsksAll switch.old during schedule.now places.now switch.new) }
    ensures served { (lines : List Line) → AreServed switch.old lines → AreServed switch.new lines }
{
    for place in places {
        let line = schedule.line(*place);
        if is_when(during, line) {
            switch.ask(line)?;
        }
    }
    Ok(())
}

/// For how many packets rows are touched at once: their loads overlap, and what they bring still is at hand when the packets come.
const AHEAD: usize = 32;

/// Up to which place rows are touched from this one on.
fn end_from(place: usize, len: usize) -> usize
    requires { place < len }
    ensures { result ≤ len }
{
    if len - place < AHEAD {
        len
    } else {
        place + AHEAD
    }
}

/// Forwards these packets, of which the first has this number.
fn forward_all<G: Watch>(
    switch: &mut Switch,
    watch: &G,
    first: u32,
    packets: &Batch,
) -> Result<(), NoMemory>
    requires numbers { first + length packets.now < 2 ^ 32 }
    ensures forwarded { OnOk result (steps.ForwardsAll switch.old (numbered first packets.now) switch.new) }
    ensures served { (lines : List Line) → AreServed switch.old lines → AreServed switch.new lines }
{
    for place in 0..packets.len() {
        if place % AHEAD == 0 {
            switch.touch(packets, place, end_from(place, packets.len()));
        }
        let captured = packets.at(place);
        switch.forward(watch, first + place as u32, &captured)?;
    }
    Ok(())
}

/// Runs the round of these packets, the first of which has the number `first` in the trace: the commands that name that
/// number, first those before the packets and then those beside them, and then the packets. Appends its text, and answers
/// whether memory was wanting for one of them. The watch is told of each packet that isn't loose. After `NoMemory` nothing is said of
/// the switch and of what was appended.
pub fn run_round<G: Watch>(
    switch: &mut Switch,
    watch: &G,
    schedule: &Schedule,
    first: u32,
    packets: &Batch,
    out: &mut RoundText,
) -> Result<bool, NoMemory>
    requires served { AreServed switch.old schedule.now }
    requires numbers { first + length packets.now < 2 ^ 32 }
    ensures runs { IfOk result (λ short. RunsFrom switch.old schedule.now first packets.now switch.new short (whole_text out.old) (whole_text out.new)) }
    ensures served { (lines : List Line) → AreServed switch.old lines → AreServed switch.new lines }
{
    switch.take_rooms(out);
    let places = schedule.places(first);
    ask_all(switch, schedule, places, false)?;
    ask_all(switch, schedule, places, true)?;
    forward_all(switch, watch, first, packets)?;
    switch.close(first, out)
}
