//! A caller of a port: its pass, and what becomes of it with a call.

ghost use Rattle.std.specs.Prelude.{◌≡◌, ◌≤◌, ◌<◌, ◌+◌, ◌-◌, ◌++◌, ℕ, List, not, false, true, length, Some, IfOk, IfErr, OnOk, OnErr};
ghost use mathlib.Core.List.{IsPrefix};
ghost use Rattle.vsw_base.specs.Frame.{Parts};
ghost use Rattle.vsw_commandfile.specs.declared.line.Line.{Line};
ghost use Rattle.vsw_flows.specs.Flows.{IsOf};
ghost use Rattle.vsw_core.specs.Core.{layers_of};
ghost use Rattle.vsw_port.specs.declared.event.Event.TheVariants as event;
ghost use Rattle.vsw_port.specs.Calls.{Asked, Carried, Reads, controller_at};
ghost use Rattle.vsw_port.specs.History.{replay};
ghost use Rattle.vsw_port.specs.Next.{IsDone};
ghost use Rattle.vsw_table.specs.Held.{IsRead};
ghost use Rattle.vsw_policy.specs.Obey.{is_memory, rules_given};
ghost use Rattle.vsw_policy.specs.Refusals.{reply_of};
ghost use Rattle.vsw_policy.specs.Sound.{Each, IsGoodRule, is_listed};
ghost use Rattle.vsw_port.specs.Core.{entered};
ghost use Rattle.vsw_port.specs.Crossed.{EditsPass, IsOwn};
ghost use Rattle.vsw_answer.specs.Answered.{AnsweredAt};
ghost use Rattle.vsw_sole.specs.Callers.{HasCalled, IsTold, Refills, edited_by, one_if};
ghost use Rattle.vsw_sole.specs.Sole.{IsWhy};
ghost use Rattle.vsw_rows.specs.GoodRows.{opening_of};

use vsw_answer::{Desk, RowAnswer, Why, answer_by_row};
use vsw_base::{Crossing, NoMemory};
use vsw_core::Core;
use vsw_flows::PortStory;
use vsw_policy::{Command, Refusal};
use vsw_port::Outcome;
use vsw_table::{Lookup, Pass};

/// Entries that a pass may make in all.
const MOST: u32 = 1 << 27;

/// A caller's pass, and what is known of it.
#[derive(Drop)]
pub(crate) struct Caller {
    pub pass: Pass<PortStory>,
    /// Entries of the history that it has seen.
    pub seen: usize,
    /// Entries that it made.
    pub made: u32,
    /// Entries that it may still make.
    pub permits: u32,
}

/// The caller has seen so many entries of the history after a call, which is an entry or none.
fn settle(caller: &mut Caller, entry: bool, seen: usize)
    requires permit { 0 < caller.old.permits }
    requires few { caller.old.made + caller.old.permits ≤ 134217728 }
    ensures { caller.new ≡ record { pass = caller.old.pass; seen = seen; made = caller.old.made + one_if entry; permits = caller.old.permits - one_if entry } }
{
    caller.seen = seen;
    if entry {
        caller.made += 1;
        caller.permits -= 1;
    }
}

/// The caller sees the whole history.
fn catch_up(core: &mut Core, lookup: &Lookup<PortStory>, caller: &mut Caller)
    requires core { IsOf lookup.now core.old.writer }
    requires told { IsTold lookup.now caller.old }
    requires front { IsPrefix caller.old.pass.view.front core.old.writer.view.history }
    ensures core { IsOf lookup.now core.new.writer }
    ensures history { core.new.writer.view.history ≡ core.old.writer.view.history }
    ensures edited { core.new.edited ≡ core.old.edited }
    ensures told { IsTold lookup.now caller.new }
    ensures number { caller.new.pass.view.number ≡ caller.old.pass.view.number }
    ensures front { caller.new.pass.view.front ≡ core.old.writer.view.history }
    ensures permits { caller.new.permits ≡ caller.old.permits }
{
    let count = core.journal().len();
    if caller.seen == count {
        return;
    }
    let _ = core.grant(lookup, &mut caller.pass, 0);
    caller.seen = count;
}

/// The caller may make at least so many entries.
pub(crate) fn refill(
    core: &mut Core,
    lookup: &Lookup<PortStory>,
    caller: &mut Caller,
    least: u32,
) -> Result<(), NoMemory>
    requires core { IsOf lookup.now core.old.writer }
    requires told { IsTold lookup.now caller.old }
    requires front { IsPrefix caller.old.pass.view.front core.old.writer.view.history }
    ensures core { IsOf lookup.now core.new.writer }
    ensures history { core.new.writer.view.history ≡ core.old.writer.view.history }
    ensures edited { core.new.edited ≡ core.old.edited }
    ensures refills { Refills lookup.now core.old.writer.view.history caller.old caller.new }
    ensures least { OnOk result (least ≤ caller.new.permits) }
{
    if least <= caller.permits {
        return Ok(());
    }
    if least > MOST - caller.made {
        return Err(NoMemory);
    }
    core.grant(lookup, &mut caller.pass, least - caller.permits)?;
    caller.permits = least;
    caller.seen = core.journal().len();
    Ok(())
}

/// A row answers the caller's packet as the layers do after all that the caller had seen, or it is told why none does.
fn by_row(
    lookup: &Lookup<PortStory>,
    caller: &mut Caller,
    crossing: &Crossing,
    desk: &mut Desk,
) -> Result<Outcome, Why>
    requires told { IsTold lookup.now caller.old }
    ensures caller { caller.new ≡ record { pass = caller.new.pass; seen = caller.old.seen; made = caller.old.made; permits = caller.old.permits } }
    ensures same { IsRead caller.old.pass.view caller.new.pass.view × (caller.new.pass.table ≡ caller.old.pass.table) }
    ensures answered { IfOk result (λ outcome. AnsweredAt lookup.now crossing.now caller.old.pass.view.front desk.new outcome × (caller.new.pass.view.front ≡ caller.old.pass.view.front)) }
    ensures why { IfErr result (λ why. IsWhy crossing.now false (Some why)) }
{
    match answer_by_row(lookup, &mut caller.pass, crossing, desk) {
        RowAnswer::Read { outcome, count } => {
            if count as usize == caller.seen {
                Ok(outcome)
            } else {
                // It has seen more than this port's callers: of one thread's there is no such row.
                Err(Why::Miss)
            }
        }
        RowAnswer::Control => Err(Why::Control),
        RowAnswer::Miss => Err(Why::Miss),
        RowAnswer::Late => Err(Why::Late),
    }
}

/// The caller's packet crosses the layers, and leaves a row.
fn by_layers(
    core: &mut Core,
    lookup: &Lookup<PortStory>,
    caller: &mut Caller,
    crossing: &Crossing,
) -> Outcome
    requires core { IsOf lookup.now core.old.writer }
    requires told { IsOf lookup.now caller.old.pass }
    requires made { caller.old.made ≡ length caller.old.pass.view.receipts }
    requires permits { caller.old.permits ≡ caller.old.pass.view.permits }
    requires few { caller.old.made + caller.old.permits ≤ 134217728 }
    requires number { crossing.now.caller ≡ caller.old.pass.view.number }
    requires permit { 0 < caller.old.permits }
    ensures done { (p : Parts) (bytes : List ℕ) → IsDone (opening_of lookup.now.1) core.old.writer.view.history (Carried crossing.now p result.fate bytes) result.entry }
    ensures edits { EditsPass (layers_of lookup.now.1 core.old) crossing.now core.new.edited result.kept result.fate }
    ensures own { result.own ≡ true → IsOwn crossing.now core.new.edited result.kept }
    ensures core { IsOf lookup.now core.new.writer }
    ensures history { core.new.writer.view.history ≡ core.old.writer.view.history ++ entered result.entry (event.Crossing crossing.now result.fate) }
    ensures caller { HasCalled lookup.now core.new.writer.view.history result.entry caller.old caller.new }
{
    let outcome = core.slow(lookup, &mut caller.pass, crossing);
    settle(caller, outcome.entry, core.journal().len());
    outcome
}

/// The same, and no row is left.
fn by_walk(
    core: &mut Core,
    lookup: &Lookup<PortStory>,
    caller: &mut Caller,
    crossing: &Crossing,
) -> Outcome
    requires core { IsOf lookup.now core.old.writer }
    requires told { IsOf lookup.now caller.old.pass }
    requires made { caller.old.made ≡ length caller.old.pass.view.receipts }
    requires permits { caller.old.permits ≡ caller.old.pass.view.permits }
    requires few { caller.old.made + caller.old.permits ≤ 134217728 }
    requires number { crossing.now.caller ≡ caller.old.pass.view.number }
    requires permit { 0 < caller.old.permits }
    ensures done { (p : Parts) (bytes : List ℕ) → IsDone (opening_of lookup.now.1) core.old.writer.view.history (Carried crossing.now p result.fate bytes) result.entry }
    ensures edits { EditsPass (layers_of lookup.now.1 core.old) crossing.now core.new.edited result.kept result.fate }
    ensures own { result.own ≡ true → IsOwn crossing.now core.new.edited result.kept }
    ensures core { IsOf lookup.now core.new.writer }
    ensures history { core.new.writer.view.history ≡ core.old.writer.view.history ++ entered result.entry (event.Crossing crossing.now result.fate) }
    ensures caller { HasCalled lookup.now core.new.writer.view.history result.entry caller.old caller.new }
{
    let outcome = core.cross(lookup, &mut caller.pass, crossing);
    settle(caller, outcome.entry, core.journal().len());
    outcome
}

/// The caller's packet is answered by a row, or crosses the layers and leaves one. `why` tells why no row answered. It stands apart
/// from `carry`, so that a packet that only walks doesn't clear and merge what rows answer.
#[inline(never)]
fn by_rows(
    core: &mut Core,
    lookup: &Lookup<PortStory>,
    caller: &mut Caller,
    crossing: &Crossing,
    desk: &mut Desk,
    why: &mut Option<Why>,
) -> Outcome
    requires core { IsOf lookup.now core.old.writer }
    requires told { IsTold lookup.now caller.old }
    requires front { IsPrefix caller.old.pass.view.front core.old.writer.view.history }
    requires number { crossing.now.caller ≡ caller.old.pass.view.number }
    requires permit { 0 < caller.old.permits }
    ensures done { (p : Parts) (bytes : List ℕ) → IsDone (opening_of lookup.now.1) core.old.writer.view.history (Carried crossing.now p result.fate bytes) result.entry }
    ensures edits { EditsPass (layers_of lookup.now.1 core.old) crossing.now (edited_by why.new desk.new core.new.edited) result.kept result.fate }
    ensures own { result.own ≡ true → IsOwn crossing.now (edited_by why.new desk.new core.new.edited) result.kept }
    ensures why { IsWhy crossing.now result.entry why.new }
    ensures core { IsOf lookup.now core.new.writer }
    ensures history { core.new.writer.view.history ≡ core.old.writer.view.history ++ entered result.entry (event.Crossing crossing.now result.fate) }
    ensures caller { HasCalled lookup.now core.new.writer.view.history result.entry caller.old caller.new }
{
    catch_up(core, lookup, caller);
    match by_row(lookup, caller, crossing, desk) {
        Ok(outcome) => {
            *why = None;
            outcome
        }
        Err(cause) => {
            *why = Some(cause);
            by_layers(core, lookup, caller, crossing)
        }
    }
}

/// The caller's packet is answered by a row, or crosses the layers. Where these are light, a walk over them costs less than
/// a row's answer, and no row is looked for or left. `why` tells why no row answered. Where one did, its headers are on the
/// desk.
pub(crate) fn carry(
    core: &mut Core,
    lookup: &Lookup<PortStory>,
    caller: &mut Caller,
    crossing: &Crossing,
    desk: &mut Desk,
    why: &mut Option<Why>,
    light: bool,
) -> Outcome
    requires core { IsOf lookup.now core.old.writer }
    requires told { IsTold lookup.now caller.old }
    requires front { IsPrefix caller.old.pass.view.front core.old.writer.view.history }
    requires number { crossing.now.caller ≡ caller.old.pass.view.number }
    requires permit { 0 < caller.old.permits }
    ensures done { (p : Parts) (bytes : List ℕ) → IsDone (opening_of lookup.now.1) core.old.writer.view.history (Carried crossing.now p result.fate bytes) result.entry }
    ensures edits { EditsPass (layers_of lookup.now.1 core.old) crossing.now (edited_by why.new desk.new core.new.edited) result.kept result.fate }
    ensures own { result.own ≡ true → IsOwn crossing.now (edited_by why.new desk.new core.new.edited) result.kept }
    ensures why { IsWhy crossing.now result.entry why.new }
    ensures core { IsOf lookup.now core.new.writer }
    ensures history { core.new.writer.view.history ≡ core.old.writer.view.history ++ entered result.entry (event.Crossing crossing.now result.fate) }
    ensures caller { HasCalled lookup.now core.new.writer.view.history result.entry caller.old caller.new }
{
    if light {
        *why = Some(Why::Light);
        return by_walk(core, lookup, caller, crossing);
    }
    by_rows(core, lookup, caller, crossing, desk, why)
}

/// Whether an answer is an entry of the history.
fn is_entry(answer: Result<(), Refusal>) -> bool
    ensures { result ≡ not (is_memory answer) }
{
    match answer {
        Err(Refusal::Memory) => false,
        _ => true,
    }
}

/// The caller, a controller, has its command done or refused.
pub(crate) fn ask(
    core: &mut Core,
    lookup: &Lookup<PortStory>,
    caller: &mut Caller,
    line: u32,
    controller: u16,
    command: &Command,
) -> Result<(), Refusal>
    requires core { IsOf lookup.now core.old.writer }
    requires told { IsTold lookup.now caller.old }
    requires number { controller_at lookup.now.1.controllers controller ≡ caller.old.pass.view.number }
    requires permit { 0 < caller.old.permits }
    requires listed { is_listed lookup.now.1.controllers controller ≡ true }
    requires good { Each IsGoodRule (rules_given command.now) }
    ensures done { (l : Line) → l.number ≡ line → l.controller ≡ controller → l.command ≡ command.now → IsDone (opening_of lookup.now.1) core.old.writer.view.history (Asked l (reply_of result)) (not (is_memory result)) }
    ensures core { IsOf lookup.now core.new.writer }
    ensures history { core.new.writer.view.history ≡ core.old.writer.view.history ++ entered (not (is_memory result)) (event.Command controller line command.now (reply_of result)) }
    ensures caller { HasCalled lookup.now core.new.writer.view.history (not (is_memory result)) caller.old caller.new }
{
    let answer = core.command(lookup, &mut caller.pass, line, controller, command);
    settle(caller, is_entry(answer), core.journal().len());
    answer
}
