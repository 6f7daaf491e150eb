//! Checking a report.

ghost use Rattle.std.specs.Prelude.{◌≡◌, ◌<◌, ◌≤◌, IfOk, length};
ghost use Rattle.vsw_app.specs.Answers.{PutsAnswer};
ghost use Rattle.vsw_audit.specs.Check.{IsCheck};
ghost use Rattle.vsw_check.specs.Report.{AreTold};
ghost use Rattle.vsw_commandfile.specs.Good.{AreGood};
ghost use Rattle.vsw_config.specs.Good.{IsGoodPolicy};
ghost use Rattle.vsw_files.specs.Claimed.{HasChecked};
ghost use Rattle.vsw_run.specs.Checks.{answer_text};
ghost use Rattle.vsw_run.specs.Seen.{claim_seen};

use crate::ending::answered;
use std::alloc::Global;
use vsw_audit::check_report;
use vsw_base::{Items, NoMemory};
use vsw_check::Report;
use vsw_commandfile::Line;
use vsw_config::PolicyFile;
use vsw_files::{open_commands, open_policy, open_report, open_trace};
use vsw_host::Host;
use vsw_pcap::Batch;
use vsw_promise::Schedule;
use vsw_run::{Claim, Ending};

/// What is put.
fn answer_text(answer: bool) -> &'static [u8]
    ensures { result.now ≡ answer_text answer }
{
    if answer { b"legal\n" } else { b"illegal\n" }
}

/// Puts the answer, and tells how the run ends.
fn put_answer<H: Host>(host: &mut H, answer: bool) -> Ending
    ensures { PutsAnswer (H.outside host.old) (H.outside host.new) answer result }
{
    match host.put(answer_text(answer)) {
        Ok(()) => answered(answer),
        Err(_) => Ending::WriteFault,
    }
}

/// Whether the report is that of a run with so many workers over a policy, commands and the records of a trace.
fn judged(
    alloc: Global,
    workers: u32,
    policy: &PolicyFile,
    lines: Items<Line>,
    records: &Batch,
    report: &Report,
) -> Result<bool, NoMemory>
    requires some { 1 ≤ workers }
    requires few { workers ≤ 16 }
    requires good { IsGoodPolicy policy.now }
    requires asked { AreGood policy.now lines }
    requires records { length records.now ≤ 1048576 }
    requires told { AreTold report.now.rounds }
    ensures { IfOk result (λ answer. IsCheck workers policy.now lines records.now report.now.rounds answer) }
{
    let schedule = Schedule::new(alloc, lines)?;
    check_report(alloc, workers, policy, &schedule, records, report)
}

/// Checks a report: reads and judges the files of the run that is claimed, and then the report, and puts the answer. It waits for nobody.
pub fn check<H: Host>(alloc: Global, host: &mut H, claim: &Claim<'_>) -> Ending
    requires some { 1 ≤ claim.now.run.workers }
    requires few { claim.now.run.workers ≤ 16 }
    ensures { HasChecked (claim_seen claim.now) (H.outside host.old) (H.outside host.new) result }
{
    let policy = match open_policy(alloc, host, claim.run.policy) {
        Ok(policy) => policy,
        Err(end) => return end,
    };
    let lines = match open_commands(alloc, host, &policy, claim.run.commands) {
        Ok(lines) => lines,
        Err(end) => return end,
    };
    let trace = match open_trace(alloc, host, claim.run.trace) {
        Ok(trace) => trace,
        Err(end) => return end,
    };
    let report = match open_report(alloc, host, claim.report) {
        Ok(report) => report,
        Err(end) => return end,
    };
    match judged(
        alloc,
        claim.run.workers,
        &policy,
        lines,
        &trace.batch,
        &report,
    ) {
        Ok(answer) => put_answer(host, answer),
        Err(_) => Ending::Memory,
    }
}
