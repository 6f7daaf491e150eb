//! A controller's command at the end of the history.

ghost use Rattle.std.specs.Prelude.{◌≡◌, ◌≤◌, ◌<◌, ◌+◌, ◌++◌, [], ◌∷◌, List, not, true, length};
ghost use mathlib.Core.List.{IsPrefix};
ghost use Rattle.vsw_commandfile.specs.declared.line.Line.{Line};
ghost use Rattle.vsw_core.specs.Calls.{FallsOver, called, grown};
ghost use Rattle.vsw_core.specs.Core.{IsOwned};
ghost use Rattle.vsw_flows.specs.Flows.{IsOf};
ghost use Rattle.vsw_port.specs.declared.event.Event.TheVariants as event;
ghost use Rattle.vsw_port.specs.Calls.{Asked, controller_at};
ghost use Rattle.vsw_port.specs.History.{AllRight};
ghost use Rattle.vsw_port.specs.Next.{IsDone};
ghost use Rattle.vsw_rows.specs.Entries.{is_obeyed};
ghost use Rattle.vsw_rows.specs.Rows.{layers_after};
ghost use Rattle.vsw_table.specs.Rules.{permits_of};
ghost use Rattle.vsw_policy.specs.Obey.{is_memory, rules_given};
ghost use Rattle.vsw_policy.specs.Refusals.{reply_of};
ghost use Rattle.vsw_policy.specs.Sound.{Each, IsGoodRule, is_listed};
ghost use Rattle.vsw_port.specs.Core.{entered};
ghost use Rattle.vsw_rows.specs.GoodRows.{opening_of};

use vsw_base::NoMemory;
use vsw_flows::{PortStory, Rows};
use vsw_policy::{Command, Refusal};
use vsw_port::{Event, Ledger};
use vsw_table::{Lookup, Pass};

/// Takes room for one look of each row in the layer that the command adds, if it adds one.
fn take_looks(ledger: &Ledger, rows: &mut Rows, command: &Command) -> Result<(), NoMemory>
    ensures same { rows.new ≡ rows.old }
    ensures right { AllRight ledger.now.opening ledger.now.journal }
{
    let layers = ledger.policy().layers().len();
    match command {
        Command::AddLayer { .. } => rows.reserve(layers + 1),
        _ => Ok(()),
    }
}

/// Whether memory was wanting.
fn is_short(answer: Result<(), Refusal>) -> bool
    ensures { result ≡ is_memory answer }
{
    match answer {
        Ok(()) => false,
        Err(Refusal::Memory) => true,
        Err(_) => false,
    }
}

/// The last entry.
pub(crate) fn last_of(journal: &[Event]) -> &Event
    requires { 0 < length journal.now }
    ensures { (h : List Event) (e : Event) → journal.now ≡ h ++ e ∷ [] → result.now ≡ e }
{
    &journal[journal.len() - 1]
}

/// Does what a controller asks, or refuses it. Before that the rows fall that it may change. Whether it is refused is told
/// only behind that, so they fall then, too.
pub(crate) fn command(
    ledger: &mut Ledger,
    rows: &mut Rows,
    permits: &mut u64,
    lookup: &Lookup<PortStory>,
    pass: &mut Pass<PortStory>,
    line: u32,
    controller: u16,
    command: &Command,
) -> Result<(), Refusal>
    requires owned { IsOwned ledger.old rows.old permits.old }
    requires core { IsOf lookup.now rows.old }
    requires pass { IsOf lookup.now pass.old }
    requires caller { controller_at lookup.now.1.controllers controller ≡ pass.old.view.number }
    requires permit { 0 < pass.old.view.permits }
    requires listed { is_listed lookup.now.1.controllers controller ≡ true }
    requires good { Each IsGoodRule (rules_given command.now) }
    ensures owned { IsOwned ledger.new rows.new permits.new }
    ensures done { (l : Line) → l.number ≡ line → l.controller ≡ controller → l.command ≡ command.now → IsDone (opening_of lookup.now.1) rows.old.view.history (Asked l (reply_of result)) (not (is_memory result)) }
    ensures writer { rows.new ≡ record rows.old { view = grown rows.old.view pass.old.view (entered (not (is_memory result)) (event.Command controller line command.now (reply_of result))) rows.new.view } }
    ensures pass { pass.new ≡ record pass.old { view = called pass.old.view rows.new.view.history (entered (not (is_memory result)) (event.Command controller line command.now (reply_of result))) } }
    ensures falls { FallsOver (layers_after lookup.now.1 rows.old.view.history) controller command.now (is_obeyed (reply_of result)) rows.old rows.new }
    ensures right { AllRight (opening_of lookup.now.1) rows.new.view.history }
    ensures held { pass.old.view.permits ≡ permits_of rows.old.view pass.old.view.number }
    ensures short { length rows.old.view.history < 4294967295 }
    ensures seen { IsPrefix pass.old.view.front rows.old.view.history }
{
    // It tells the proof that the pass may meet the history.
    pass.bound();
    rows.meet(lookup, pass, 0);
    let Ok(()) = take_looks(ledger, rows, command) else {
        return Err(Refusal::Memory);
    };
    rows.obey(lookup, ledger.policy().layers(), controller, command);
    let answer = ledger.command(line, controller, command);
    if is_short(answer) {
        return answer;
    }
    rows.advance(lookup, pass, last_of(ledger.journal()));
    *permits -= 1;
    answer
}
