//! How a run ends: its status, and what is complained.

ghost use Rattle.std.specs.Prelude.{◌≡◌};
ghost use Rattle.vsw_host.specs.Outside.{SameInputs};
ghost use Rattle.vsw_run.specs.Complaint.{policy_status, commands_status, report_status, rows_status, status_of, complaint, Complains};
ghost use Rattle.vsw_app.specs.Ending.{answered};
ghost use Rattle.vsw_replay.specs.Endings.{drawn_ending, ending_of};
ghost use Rattle.vsw_app.specs.Speaks.{KeepsPut};

use crate::complaint::say_ending;
use vsw_commandfile::CommandsFault;
use vsw_config::ConfigFault;
use vsw_host::Host;
use vsw_offload::BadRows;
use vsw_replay::{TraceEnd, WorkloadEnd};
use vsw_run::{Ending, ReportFault, RowsFault, Status};

/// The ending of a run by how its trace ended.
pub fn ending_of(end: TraceEnd) -> Ending
    ensures { result ≡ ending_of end }
{
    match end {
        TraceEnd::Done => Ending::Done,
        TraceEnd::ReadFault => Ending::ReadFault,
        TraceEnd::WriteFault => Ending::WriteFault,
        TraceEnd::Refused(bad) => Ending::Trace(bad),
        TraceEnd::Records => Ending::Records,
        TraceEnd::Memory => Ending::Memory,
    }
}

/// The ending of a run by how its workload ended.
pub fn drawn_ending(end: WorkloadEnd) -> Ending
    ensures { result ≡ drawn_ending end }
{
    match end {
        WorkloadEnd::Done => Ending::Done,
        WorkloadEnd::WriteFault => Ending::WriteFault,
        WorkloadEnd::Memory => Ending::Memory,
    }
}

/// The ending of a check by its answer.
pub fn answered(answer: bool) -> Ending
    ensures { result ≡ answered answer }
{
    if answer {
        Ending::Done
    } else {
        Ending::Illegal
    }
}

fn policy_status(why: &ConfigFault) -> Status
    ensures { result ≡ policy_status why.now }
{
    match why {
        ConfigFault::Bad { .. } => Status::Refused,
        ConfigFault::PolicyLimit => Status::Limit,
        ConfigFault::PortsLimit => Status::Limit,
        ConfigFault::ControllersLimit => Status::Limit,
        ConfigFault::Memory => Status::Memory,
    }
}

fn commands_status(why: &CommandsFault) -> Status
    ensures { result ≡ commands_status why.now }
{
    match why {
        CommandsFault::Bad { .. } => Status::Refused,
        CommandsFault::CommandsLimit => Status::Limit,
        CommandsFault::LinesLimit => Status::Limit,
        CommandsFault::Memory => Status::Memory,
    }
}

fn report_status(why: &ReportFault) -> Status
    ensures { result ≡ report_status why.now }
{
    match why {
        ReportFault::Line { .. } => Status::Refused,
        ReportFault::ReportLimit => Status::Limit,
    }
}

fn rows_status(why: RowsFault) -> Status
    ensures { result ≡ rows_status why }
{
    match why {
        RowsFault::Bad(BadRows::Memory) => Status::Memory,
        RowsFault::Bad(BadRows::NotRows) => Status::Refused,
        RowsFault::Bad(BadRows::Cut { .. }) => Status::Refused,
        RowsFault::Bad(BadRows::ManyPorts { .. }) => Status::Refused,
        RowsFault::Bad(BadRows::PortTwice { .. }) => Status::Refused,
        RowsFault::Bad(BadRows::ManyRows { .. }) => Status::Refused,
        RowsFault::Bad(BadRows::BadRow { .. }) => Status::Refused,
        RowsFault::Bad(BadRows::Order { .. }) => Status::Refused,
        RowsFault::Bad(BadRows::Extra { .. }) => Status::Refused,
        RowsFault::RowsLimit => Status::Limit,
    }
}

/// The exit status of an ending.
fn status_of(end: &Ending) -> Status
    ensures { result ≡ status_of end.now }
{
    match end {
        Ending::Done => Status::Done,
        Ending::Usage => Status::Usage,
        Ending::ReadFault => Status::ReadFault,
        Ending::WriteFault => Status::WriteFault,
        Ending::Policy(why) => policy_status(why),
        Ending::Commands(why) => commands_status(why),
        Ending::Trace(_) => Status::Refused,
        Ending::Records => Status::Limit,
        Ending::Report(why) => report_status(why),
        Ending::Rows(why) => rows_status(*why),
        Ending::Illegal => Status::Illegal,
        Ending::Memory => Status::Memory,
    }
}

/// Complains the words of an ending, and answers its status. A fault of the complaint changes nothing.
pub fn finish<H: Host>(host: &mut H, end: &Ending) -> Status
    ensures status { result ≡ status_of end.now }
    ensures complains { Complains (H.outside host.old) (H.outside host.new) (complaint end.now) }
    ensures inputs { SameInputs (H.outside host.old) (H.outside host.new) }
    ensures put { KeepsPut (H.outside host.old) (H.outside host.new) }
{
    let _ = say_ending(host, end);
    status_of(end)
}
