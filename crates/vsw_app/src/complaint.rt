//! The words that are complained. They are said in pieces, and take no memory.

ghost use Rattle.std.specs.Prelude.{◌≡◌, ◌++◌, codes, decimal};
ghost use Rattle.vsw_config.specs.Path.{step_text, steps_text, path_text};
ghost use Rattle.vsw_pcap.specs.Fault.{trace_name};
ghost use Rattle.vsw_run.specs.Complaint.{byte_text, fault_text, place_text, policy_text, commands_text, report_text, rows_text, complaint};
ghost use Rattle.vsw_app.specs.Speaks.{name_text, Speaks};

use itoa::Buffer;
use vsw_commandfile::CommandsFault;
use vsw_config::{ConfigFault, Kind, Step};
use vsw_host::{Failed, Host};
use vsw_offload::BadRows;
use vsw_pcap::BadTrace;
use vsw_run::{Ending, ReportFault, RowsFault};

/// Complains a piece of the words.
fn say<H: Host>(host: &mut H, words: &[u8]) -> Result<(), Failed>
    ensures { Speaks (H.outside host.old) (H.outside host.new) words.now result }
{
    host.complain(words)
}

fn say_number<H: Host>(host: &mut H, number: u64) -> Result<(), Failed>
    ensures { Speaks (H.outside host.old) (H.outside host.new) (decimal number) result }
{
    let mut buffer = Buffer::new();
    say(host, buffer.format(number).as_bytes())
}

fn say_byte<H: Host>(host: &mut H, at: u64) -> Result<(), Failed>
    ensures { Speaks (H.outside host.old) (H.outside host.new) (codes " " ++ decimal at) result }
{
    match say(host, b" ") {
        Ok(()) => say_number(host, at),
        Err(failed) => Err(failed),
    }
}

fn say_place<H: Host>(host: &mut H, bad: BadTrace) -> Result<(), Failed>
    ensures { Speaks (H.outside host.old) (H.outside host.new) (byte_text bad) result }
{
    match bad {
        BadTrace::Cut { at } | BadTrace::Huge { at } => say_byte(host, at),
        _ => say(host, b""),
    }
}

fn say_place_end<H: Host>(host: &mut H, bad: BadTrace) -> Result<(), Failed>
    ensures { Speaks (H.outside host.old) (H.outside host.new) (byte_text bad ++ codes "\n") result }
{
    match say_place(host, bad) {
        Ok(()) => say(host, b"\n"),
        Err(failed) => Err(failed),
    }
}

fn say_bad<H: Host>(host: &mut H, bad: BadTrace) -> Result<(), Failed>
    ensures { Speaks (H.outside host.old) (H.outside host.new) (trace_name bad ++ (byte_text bad ++ codes "\n")) result }
{
    match say(host, bad.name().as_bytes()) {
        Ok(()) => say_place_end(host, bad),
        Err(failed) => Err(failed),
    }
}

/// Complains the words of a refused trace.
fn say_bad_trace<H: Host>(host: &mut H, bad: BadTrace) -> Result<(), Failed>
    ensures { Speaks (H.outside host.old) (H.outside host.new) (codes "vsw: refused trace " ++ (trace_name bad ++ (byte_text bad ++ codes "\n"))) result }
{
    match say(host, b"vsw: refused trace ") {
        Ok(()) => say_bad(host, bad),
        Err(failed) => Err(failed),
    }
}

/// The name of a member, or the place of an item.
fn say_name<H: Host>(host: &mut H, step: Step) -> Result<(), Failed>
    ensures { Speaks (H.outside host.old) (H.outside host.new) (name_text step) result }
{
    match step {
        Step::Member(word) => say(host, word.text().as_bytes()),
        Step::Place(place) => {
            let mut buffer = Buffer::new();
            say(host, buffer.format(place).as_bytes())
        }
    }
}

fn say_step<H: Host>(host: &mut H, step: &Step) -> Result<(), Failed>
    ensures { Speaks (H.outside host.old) (H.outside host.new) (step_text step.now) result }
{
    match say(host, b"/") {
        Ok(()) => say_name(host, *step),
        Err(failed) => Err(failed),
    }
}

/// Complains the steps of a path from its outermost, which stands last, inwards.
fn say_steps<H: Host>(host: &mut H, path: &[Step]) -> Result<(), Failed>
    ensures { Speaks (H.outside host.old) (H.outside host.new) (steps_text path.now) result }
{
    match path.split_first() {
        None => say(host, b""),
        Some((inner, outer)) => match say_steps(host, outer) {
            Ok(()) => say_step(host, inner),
            Err(failed) => Err(failed),
        },
    }
}

fn say_path<H: Host>(host: &mut H, path: &[Step]) -> Result<(), Failed>
    ensures { Speaks (H.outside host.old) (H.outside host.new) (path_text path.now) result }
{
    if path.is_empty() {
        say(host, b"/")
    } else {
        say_steps(host, path)
    }
}

fn say_path_end<H: Host>(host: &mut H, path: &[Step]) -> Result<(), Failed>
    ensures { Speaks (H.outside host.old) (H.outside host.new) (path_text path.now ++ codes "\n") result }
{
    match say_path(host, path) {
        Ok(()) => say(host, b"\n"),
        Err(failed) => Err(failed),
    }
}

fn say_where<H: Host>(host: &mut H, path: &[Step]) -> Result<(), Failed>
    ensures { Speaks (H.outside host.old) (H.outside host.new) (codes " " ++ (path_text path.now ++ codes "\n")) result }
{
    match say(host, b" ") {
        Ok(()) => say_path_end(host, path),
        Err(failed) => Err(failed),
    }
}

/// Complains the kind of a fault, and the path to it.
fn say_fault<H: Host>(host: &mut H, kind: Kind, path: &[Step]) -> Result<(), Failed>
    ensures { Speaks (H.outside host.old) (H.outside host.new) (fault_text kind path.now) result }
{
    match say(host, kind.name().as_bytes()) {
        Ok(()) => say_where(host, path),
        Err(failed) => Err(failed),
    }
}

fn say_bad_policy<H: Host>(host: &mut H, kind: Kind, path: &[Step]) -> Result<(), Failed>
    ensures { Speaks (H.outside host.old) (H.outside host.new) (codes "vsw: refused policy " ++ fault_text kind path.now) result }
{
    match say(host, b"vsw: refused policy ") {
        Ok(()) => say_fault(host, kind, path),
        Err(failed) => Err(failed),
    }
}

fn say_fault_apart<H: Host>(host: &mut H, kind: Kind, path: &[Step]) -> Result<(), Failed>
    ensures { Speaks (H.outside host.old) (H.outside host.new) (codes " " ++ fault_text kind path.now) result }
{
    match say(host, b" ") {
        Ok(()) => say_fault(host, kind, path),
        Err(failed) => Err(failed),
    }
}

fn say_line<H: Host>(host: &mut H, line: u32, kind: Kind, path: &[Step]) -> Result<(), Failed>
    ensures { Speaks (H.outside host.old) (H.outside host.new) (decimal line ++ (codes " " ++ fault_text kind path.now)) result }
{
    match say_number(host, u64::from(line)) {
        Ok(()) => say_fault_apart(host, kind, path),
        Err(failed) => Err(failed),
    }
}

fn say_bad_line<H: Host>(host: &mut H, line: u32, kind: Kind, path: &[Step]) -> Result<(), Failed>
    ensures { Speaks (H.outside host.old) (H.outside host.new) (codes "vsw: refused commands " ++ (decimal line ++ (codes " " ++ fault_text kind path.now))) result }
{
    match say(host, b"vsw: refused commands ") {
        Ok(()) => say_line(host, line, kind, path),
        Err(failed) => Err(failed),
    }
}

/// Complains what is wrong with a policy.
fn say_policy<H: Host>(host: &mut H, why: &ConfigFault) -> Result<(), Failed>
    ensures { Speaks (H.outside host.old) (H.outside host.new) (policy_text why.now) result }
{
    match why {
        ConfigFault::Bad { kind, path } => say_bad_policy(host, *kind, path.as_slice()),
        ConfigFault::PolicyLimit => say(host, b"vsw: limit policy\n"),
        ConfigFault::PortsLimit => say(host, b"vsw: limit ports\n"),
        ConfigFault::ControllersLimit => say(host, b"vsw: limit controllers\n"),
        ConfigFault::Memory => say(host, b"vsw: memory\n"),
    }
}

/// Complains what is wrong with commands.
fn say_commands<H: Host>(host: &mut H, why: &CommandsFault) -> Result<(), Failed>
    ensures { Speaks (H.outside host.old) (H.outside host.new) (commands_text why.now) result }
{
    match why {
        CommandsFault::Bad { line, kind, path } => {
            say_bad_line(host, *line, *kind, path.as_slice())
        }
        CommandsFault::CommandsLimit => say(host, b"vsw: limit commands\n"),
        CommandsFault::LinesLimit => say(host, b"vsw: limit lines\n"),
        CommandsFault::Memory => say(host, b"vsw: memory\n"),
    }
}

fn say_number_end<H: Host>(host: &mut H, number: u32) -> Result<(), Failed>
    ensures { Speaks (H.outside host.old) (H.outside host.new) (decimal number ++ codes "\n") result }
{
    match say_number(host, u64::from(number)) {
        Ok(()) => say(host, b"\n"),
        Err(failed) => Err(failed),
    }
}

fn say_bad_report<H: Host>(host: &mut H, number: u32) -> Result<(), Failed>
    ensures { Speaks (H.outside host.old) (H.outside host.new) (codes "vsw: refused report " ++ (decimal number ++ codes "\n")) result }
{
    match say(host, b"vsw: refused report ") {
        Ok(()) => say_number_end(host, number),
        Err(failed) => Err(failed),
    }
}

/// Complains what is wrong with a report.
fn say_report<H: Host>(host: &mut H, why: &ReportFault) -> Result<(), Failed>
    ensures { Speaks (H.outside host.old) (H.outside host.new) (report_text why.now) result }
{
    match why {
        ReportFault::Line { number } => say_bad_report(host, *number),
        ReportFault::ReportLimit => say(host, b"vsw: limit report\n"),
    }
}

/// Complains a word, and the byte at which something begins.
fn say_at<H: Host>(host: &mut H, word: &[u8], at: u64) -> Result<(), Failed>
    ensures { Speaks (H.outside host.old) (H.outside host.new) (word.now ++ decimal at) result }
{
    match say(host, word) {
        Ok(()) => say_number(host, at),
        Err(failed) => Err(failed),
    }
}

/// Complains what is at fault with rows, and where it begins.
fn say_rows_place<H: Host>(host: &mut H, why: BadRows) -> Result<(), Failed>
    ensures { Speaks (H.outside host.old) (H.outside host.new) (place_text why) result }
{
    match why {
        BadRows::NotRows => say(host, b"NotRows"),
        BadRows::Cut { at } => say_at(host, b"Cut ", at),
        BadRows::ManyPorts { at } => say_at(host, b"ManyPorts ", at),
        BadRows::PortTwice { at } => say_at(host, b"PortTwice ", at),
        BadRows::ManyRows { at } => say_at(host, b"ManyRows ", at),
        BadRows::BadRow { at } => say_at(host, b"BadRow ", at),
        BadRows::Order { at } => say_at(host, b"Order ", at),
        BadRows::Extra { at } => say_at(host, b"Extra ", at),
        BadRows::Memory => say(host, b"Memory"),
    }
}

fn say_rows_end<H: Host>(host: &mut H, why: BadRows) -> Result<(), Failed>
    ensures { Speaks (H.outside host.old) (H.outside host.new) (place_text why ++ codes "\n") result }
{
    match say_rows_place(host, why) {
        Ok(()) => say(host, b"\n"),
        Err(failed) => Err(failed),
    }
}

fn say_bad_rows<H: Host>(host: &mut H, why: BadRows) -> Result<(), Failed>
    ensures { Speaks (H.outside host.old) (H.outside host.new) (codes "vsw: refused rows " ++ (place_text why ++ codes "\n")) result }
{
    match say(host, b"vsw: refused rows ") {
        Ok(()) => say_rows_end(host, why),
        Err(failed) => Err(failed),
    }
}

/// Complains what is wrong with rows.
fn say_rows<H: Host>(host: &mut H, why: &RowsFault) -> Result<(), Failed>
    ensures { Speaks (H.outside host.old) (H.outside host.new) (rows_text why.now) result }
{
    match why {
        RowsFault::Bad(why) => say_bad_rows(host, *why),
        RowsFault::RowsLimit => say(host, b"vsw: limit rows\n"),
    }
}

/// Complains the words of an ending, if it has any.
pub fn say_ending<H: Host>(host: &mut H, end: &Ending) -> Result<(), Failed>
    ensures { Speaks (H.outside host.old) (H.outside host.new) (complaint end.now) result }
{
    match end {
        Ending::Done => say(host, b""),
        Ending::Usage => say(host, b"vsw: usage\n"),
        Ending::ReadFault => say(host, b"vsw: read fault\n"),
        Ending::WriteFault => say(host, b"vsw: write fault\n"),
        Ending::Policy(why) => say_policy(host, why),
        Ending::Commands(why) => say_commands(host, why),
        Ending::Trace(bad) => say_bad_trace(host, *bad),
        Ending::Records => say(host, b"vsw: limit records\n"),
        Ending::Report(why) => say_report(host, why),
        Ending::Rows(why) => say_rows(host, why),
        Ending::Illegal => say(host, b""),
        Ending::Memory => say(host, b"vsw: memory\n"),
    }
}
