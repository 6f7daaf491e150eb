//! The steps of a packet that crosses the layers.

ghost use Rattle.std.specs.Prelude.{◌≡◌, ◌≤◌, ◌<◌, ◌+◌, ◌++◌, [], ◌∷◌, ℕ, List, Some, false, length, true};
ghost use Rattle.vsw_base.specs.Frame.{Parts};
ghost use Rattle.vsw_base.specs.declared.packet.Control.TheVariants as control;
ghost use Rattle.vsw_core.specs.Calls.{FallsBy, called, grown};
ghost use Rattle.vsw_core.specs.Core.{IsOwned};
ghost use Rattle.vsw_core.specs.Private.Steps.{Publishes, Shakes, Steps, advanced, is_tried, passing, wants_change};
ghost use Rattle.vsw_core.specs.Publishing.{IsSettled, Leaves, NoneStands, StandsUntil};
ghost use Rattle.vsw_core.specs.Walks.{IsWholeWalk};
ghost use Rattle.vsw_port.specs.Calls.{Carried};
ghost use Rattle.vsw_port.specs.History.{AllRight};
ghost use Rattle.vsw_port.specs.Next.{IsDone};
ghost use Rattle.vsw_port.specs.declared.event.Event.{Event};
ghost use Rattle.vsw_port.specs.declared.event.Event.TheVariants as event;
ghost use Rattle.vsw_flows.specs.Flows.{IsOf, Spares};
ghost use Rattle.vsw_flows.specs.Shaking.{moves_none};
ghost use Rattle.vsw_table.specs.Rules.{permits_of};
ghost use Rattle.vsw_policy.specs.Layers.{PolicySeen};
ghost use Rattle.vsw_port.specs.Cross.{made_by};
ghost use Rattle.vsw_port.specs.Core.{entered};
ghost use Rattle.vsw_port.specs.Crossed.{EditsPass, IsOwn, MayBeShort, is_short};
ghost use Rattle.vsw_port.specs.Ledger.{layers_in};
ghost use Rattle.vsw_rows.specs.Rows.{layers_after};
ghost use Rattle.vsw_rows.specs.GoodRows.{opening_of};
ghost use Rattle.vsw_walk.specs.Walk.{greatest};
ghost use mathlib.Core.List.{IsPrefix};

use crate::commanding::last_of;
use crate::counting::is_current;
use crate::rooms::Rooms;
use crate::writing::write_row;
use vsw_base::{Cause, Control, Crossing, Fate, Moment, Verdict};
use vsw_flows::{Found, PortStory, Rows, moves_none};
use vsw_port::{Ledger, Outcome, judge};
use vsw_table::{Lookup, Pass};
use vsw_walk::{Scratch, Walked, walk};
use vsw_words::key_words;

/// The packet walks over the layers of now.
pub fn walk_now(ledger: &Ledger, crossing: &Crossing, scratch: &mut Scratch) -> Walked
    ensures walk { IsWholeWalk (layers_in ledger.now) crossing.now result scratch.new }
{
    walk(ledger.policy(), crossing, scratch)
}

/// The rows fall that the packet's entry shakes, where it is to be one: the walk lets the packet pass, wants something changed,
/// and isn't stopped. Where memory for a pair is wanting then, these rows cost a walk each.
#[inline(never)]
fn shake(
    lookup: &Lookup<PortStory>,
    crossing: &Crossing,
    walked: &Walked,
    scratch: &Scratch,
    ledger: &Ledger,
    rows: &mut Rows,
)
    requires table { rows.old.table ≡ lookup.now.0 }
    requires walk { IsWholeWalk (layers_in ledger.now) crossing.now walked.now scratch.now }
    ensures { (p : PolicySeen) → rows.old.view.opening ≡ Some p → layers_in ledger.now ≡ layers_after p rows.old.view.history → Shakes (layers_in ledger.now) (made_by (layers_in ledger.now) crossing.now) rows.old rows.new }
{
    if !wants_change(walked, scratch) {
        return;
    }
    let policy = ledger.policy();
    let None = judge(policy, crossing, walked, scratch) else {
        return;
    };
    rows.shake(lookup, policy.layers(), scratch.changes());
}

/// The same before the packet is settled, where its changes move a pair: which rows that shakes the layers before tell. Of most
/// packets no change does: the walk isn't read then, right behind its writing.
#[inline(always)]
fn shake_before(
    lookup: &Lookup<PortStory>,
    crossing: &Crossing,
    walked: &Walked,
    scratch: &Scratch,
    ledger: &Ledger,
    rows: &mut Rows,
)
    requires table { rows.old.table ≡ lookup.now.0 }
    requires walk { IsWholeWalk (layers_in ledger.now) crossing.now walked.now scratch.now }
    ensures moves { moves_none scratch.now.changes ≡ false → (p : PolicySeen) → rows.old.view.opening ≡ Some p → layers_in ledger.now ≡ layers_after p rows.old.view.history → Shakes (layers_in ledger.now) (made_by (layers_in ledger.now) crossing.now) rows.old rows.new }
    ensures none { moves_none scratch.now.changes ≡ true → rows.new ≡ rows.old }
{
    if moves_none(scratch.changes()) {
        return;
    }
    shake(lookup, crossing, walked, scratch, ledger, rows);
}

/// Whether the packet was dropped since memory was wanting.
fn is_short(fate: Fate) -> bool
    ensures { result ≡ is_short fate }
{
    match fate {
        Fate::Drop(Cause::Memory) => true,
        _ => false,
    }
}

/// Whether the packet changed the layers, or would have, had there been memory for a pair.
fn is_tried(outcome: Outcome) -> bool
    ensures { result ≡ is_tried outcome }
{
    outcome.entry || is_short(outcome.fate)
}

/// The same once the packet is settled, where its changes move no pair: so it is judged once. The rows fall also where memory for
/// the pair was wanting, as in the other case.
fn shake_behind(lookup: &Lookup<PortStory>, scratch: &Scratch, outcome: Outcome, rows: &mut Rows)
    requires table { rows.old.table ≡ lookup.now.0 }
    ensures falls { moves_none scratch.now.changes ≡ true → is_tried outcome ≡ true → (p : PolicySeen) → rows.old.view.opening ≡ Some p → Shakes (layers_after p rows.old.view.history) scratch.now.changes rows.old rows.new }
    ensures moves { moves_none scratch.now.changes ≡ false → rows.new ≡ rows.old }
    ensures none { is_tried outcome ≡ false → rows.new ≡ rows.old }
{
    if !is_tried(outcome) {
        return;
    }
    if moves_none(scratch.changes()) {
        rows.shake_made(lookup, scratch.changes());
    }
}

/// The packet's entry, where it is one, is added to the history.
fn follow(
    lookup: &Lookup<PortStory>,
    pass: &mut Pass<PortStory>,
    crossing: &Crossing,
    outcome: Outcome,
    ledger: &Ledger,
    rows: &mut Rows,
)
    requires core { IsOf lookup.now rows.old }
    requires pass { IsOf lookup.now pass.old }
    requires opening { ledger.now.opening ≡ opening_of lookup.now.1 }
    requires journal { ledger.now.journal ≡ rows.old.view.history ++ entered outcome.entry (event.Crossing crossing.now outcome.fate) }
    requires caller { crossing.now.caller ≡ pass.old.view.number }
    requires permit { 0 < pass.old.view.permits }
    requires spares { Spares (layers_after lookup.now.1 rows.old.view.history) (event.Crossing crossing.now outcome.fate) rows.old }
    ensures writer { rows.new ≡ record rows.old { view = advanced rows.old.view pass.old.view (entered outcome.entry (event.Crossing crossing.now outcome.fate)) } }
    ensures pass { pass.new ≡ record pass.old { view = passing pass.old.view rows.new.view (entered outcome.entry (event.Crossing crossing.now outcome.fate)) } }
{
    if !outcome.entry {
        return;
    }
    // It tells the proof that the entry is right.
    let _ = ledger.policy();
    rows.advance(lookup, pass, last_of(ledger.journal()));
}

/// An entry takes a permit.
fn spend(permits: &mut u64, entry: bool)
    requires one { 1 ≤ permits.old }
    ensures spent { (e : Event) → permits.new + length (entered entry e) ≡ permits.old }
{
    if entry {
        *permits -= 1;
    }
}

/// The packet of a walk over the layers of now crosses them, and its entry, where it is one, follows the history.
#[inline(always)]
fn enter(
    lookup: &Lookup<PortStory>,
    pass: &mut Pass<PortStory>,
    crossing: &Crossing,
    walked: &Walked,
    permits: &mut u64,
    ledger: &mut Ledger,
    rows: &mut Rows,
    scratch: &Scratch,
) -> Outcome
    requires owned { IsOwned ledger.old rows.old permits.old }
    requires core { IsOf lookup.now rows.old }
    requires pass { IsOf lookup.now pass.old }
    requires opening { ledger.old.opening ≡ opening_of lookup.now.1 }
    requires caller { crossing.now.caller ≡ pass.old.view.number }
    requires permit { 0 < pass.old.view.permits }
    requires walk { IsWholeWalk (layers_in ledger.old) crossing.now walked.now scratch.now }
    ensures done { (p : Parts) (bytes : List ℕ) → IsDone (opening_of lookup.now.1) rows.old.view.history (Carried crossing.now p result.fate bytes) result.entry }
    ensures memory { MayBeShort (is_short result.fate) (layers_after lookup.now.1 rows.old.view.history) crossing.now }
    ensures edits { EditsPass (layers_after lookup.now.1 rows.old.view.history) crossing.now scratch.now.stack result.kept result.fate }
    ensures own { result.own ≡ true → IsOwn crossing.now scratch.now.stack result.kept }
    ensures steps { Steps (layers_after lookup.now.1 rows.old.view.history) (event.Crossing crossing.now result.fate) (entered result.entry (event.Crossing crossing.now result.fate)) rows.old rows.new pass.old pass.new }
    ensures walk { result.entry ≡ false → IsWholeWalk (layers_after lookup.now.1 rows.new.view.history) crossing.now walked.now scratch.now }
    ensures held { pass.old.view.permits ≡ permits_of rows.old.view pass.old.view.number }
    ensures short { length rows.old.view.history < 4294967295 }
    ensures opening { ledger.new.opening ≡ ledger.old.opening }
    ensures owned { IsOwned ledger.new rows.new permits.new }
{
    pass.bound();
    rows.meet(lookup, pass, 0);
    shake_before(lookup, crossing, walked, scratch, ledger, rows);
    let outcome = ledger.settle(crossing, walked, scratch);
    shake_behind(lookup, scratch, outcome, rows);
    follow(lookup, pass, crossing, outcome, ledger, rows);
    spend(permits, outcome.entry);
    outcome
}

/// Whether the packet of the walk would change something.
pub fn wants_change(walked: &Walked, scratch: &Scratch) -> bool
    ensures { result ≡ wants_change walked.now.verdict scratch.now.changes }
{
    match walked.verdict {
        Verdict::Pass => !scratch.changes().is_empty(),
        Verdict::Rule { .. } => false,
        Verdict::Default { .. } => false,
    }
}

/// Microseconds of a moment.
fn micros_of(moment: Moment) -> u64
    ensures value { result ≡ moment }
    ensures small { result ≤ greatest }
{
    moment.micros()
}

/// Leaves the row of the packet's walk, unless the packet wants something changed; answers whether one stands. Where its
/// identity has a current row, that is good already.
fn leave(
    lookup: &Lookup<PortStory>,
    crossing: &Crossing,
    walked: &Walked,
    scratch: &Scratch,
    rows: &mut Rows,
    rooms: &mut Rooms,
) -> bool
    requires core { IsOf lookup.now rows.old }
    requires control { crossing.now.control ≡ control.None }
    requires walk { IsWholeWalk (layers_after lookup.now.1 rows.old.view.history) crossing.now walked.now scratch.now }
    ensures { Publishes lookup.now.2 (layers_after lookup.now.1 rows.old.view.history) crossing.now rows.old rows.new result }
{
    if wants_change(walked, scratch) {
        return false;
    }
    // They tell the proof that the stack is one, that the moment is of 64 bits, and how many rows there are.
    let _ = crossing.id.stack.headers();
    let _ = micros_of(crossing.moment);
    let _ = lookup.rows();
    let mut key = [0; 16];
    key_words(&crossing.id, &mut key);
    match rows.find(lookup, &key) {
        Found::Own { .. } => true,
        Found::Free { row } => {
            if !write_row(lookup, rows, row, crossing, walked, scratch, rooms) {
                return false;
            }
            is_current(lookup, rows, row)
        }
    }
}

/// Leaves a row for the packets that follow, if the packet has no control; answers whether one stands. The walk is one over
/// the layers of now where the packet is no entry; else it is made once more.
fn publish(
    lookup: &Lookup<PortStory>,
    crossing: &Crossing,
    walked: &Walked,
    entry: bool,
    ledger: &Ledger,
    scratch: &Scratch,
    rows: &mut Rows,
    again: &mut Scratch,
    rooms: &mut Rooms,
) -> bool
    requires core { IsOf lookup.now rows.old }
    requires opening { ledger.now.opening ≡ opening_of lookup.now.1 }
    requires journal { ledger.now.journal ≡ rows.old.view.history }
    requires walk { entry ≡ false → IsWholeWalk (layers_after lookup.now.1 rows.old.view.history) crossing.now walked.now scratch.now }
    ensures { Publishes lookup.now.2 (layers_after lookup.now.1 rows.old.view.history) crossing.now rows.old rows.new result }
{
    let Control::None = crossing.control else {
        return false;
    };
    if entry {
        let walked = walk_now(ledger, crossing, again);
        leave(lookup, crossing, &walked, again, rows, rooms)
    } else {
        leave(lookup, crossing, walked, scratch, rows, rooms)
    }
}

/// The packet crosses the layers, and leaves a row: `left` tells whether one stands.
pub fn cross(
    lookup: &Lookup<PortStory>,
    pass: &mut Pass<PortStory>,
    crossing: &Crossing,
    permits: &mut u64,
    ledger: &mut Ledger,
    rows: &mut Rows,
    scratch: &mut Scratch,
    again: &mut Scratch,
    rooms: &mut Rooms,
    left: &mut bool,
) -> Outcome
    requires owned { IsOwned ledger.old rows.old permits.old }
    requires core { IsOf lookup.now rows.old }
    requires pass { IsOf lookup.now pass.old }
    requires caller { crossing.now.caller ≡ pass.old.view.number }
    requires permit { 0 < pass.old.view.permits }
    ensures owned { IsOwned ledger.new rows.new permits.new }
    ensures done { (p : Parts) (bytes : List ℕ) → IsDone (opening_of lookup.now.1) rows.old.view.history (Carried crossing.now p result.fate bytes) result.entry }
    ensures memory { MayBeShort (is_short result.fate) (layers_after lookup.now.1 rows.old.view.history) crossing.now }
    ensures edits { EditsPass (layers_after lookup.now.1 rows.old.view.history) crossing.now scratch.new.stack result.kept result.fate }
    ensures own { result.own ≡ true → IsOwn crossing.now scratch.new.stack result.kept }
    ensures writer { rows.new ≡ record rows.old { view = grown rows.old.view pass.old.view (entered result.entry (event.Crossing crossing.now result.fate)) rows.new.view } }
    ensures pass { pass.new ≡ record pass.old { view = called pass.old.view rows.new.view.history (entered result.entry (event.Crossing crossing.now result.fate)) } }
    ensures right { AllRight (opening_of lookup.now.1) rows.new.view.history }
    ensures held { pass.old.view.permits ≡ permits_of rows.old.view pass.old.view.number }
    ensures short { length rows.old.view.history < 4294967295 }
    ensures seen { IsPrefix pass.old.view.front rows.old.view.history }
    ensures rows { Leaves lookup.now.2 (layers_after lookup.now.1 rows.old.view.history) (layers_after lookup.now.1 rows.new.view.history) crossing.now result.fate rows.old rows.new }
    ensures stands { left.new ≡ true → StandsUntil lookup.now.2 (layers_after lookup.now.1 rows.new.view.history) rows.new crossing.now.id crossing.now.moment }
    ensures wanting { crossing.now.control ≡ control.None → IsSettled (layers_after lookup.now.1 rows.new.view.history) crossing.now → left.new ≡ false → NoneStands lookup.now.2 rows.new crossing.now.id }
{
    let walked = walk_now(ledger, crossing, scratch);
    let outcome = enter(
        lookup, pass, crossing, &walked, permits, ledger, rows, scratch,
    );
    *left = publish(
        lookup,
        crossing,
        &walked,
        outcome.entry,
        ledger,
        scratch,
        rows,
        again,
        rooms,
    );
    // It tells the proof that the history is right.
    let _ = ledger.policy();
    outcome
}

/// The packet crosses the layers, and leaves no row.
pub fn cross_only(
    lookup: &Lookup<PortStory>,
    pass: &mut Pass<PortStory>,
    crossing: &Crossing,
    permits: &mut u64,
    ledger: &mut Ledger,
    rows: &mut Rows,
    scratch: &mut Scratch,
) -> Outcome
    requires owned { IsOwned ledger.old rows.old permits.old }
    requires core { IsOf lookup.now rows.old }
    requires pass { IsOf lookup.now pass.old }
    requires caller { crossing.now.caller ≡ pass.old.view.number }
    requires permit { 0 < pass.old.view.permits }
    ensures owned { IsOwned ledger.new rows.new permits.new }
    ensures done { (p : Parts) (bytes : List ℕ) → IsDone (opening_of lookup.now.1) rows.old.view.history (Carried crossing.now p result.fate bytes) result.entry }
    ensures memory { MayBeShort (is_short result.fate) (layers_after lookup.now.1 rows.old.view.history) crossing.now }
    ensures edits { EditsPass (layers_after lookup.now.1 rows.old.view.history) crossing.now scratch.new.stack result.kept result.fate }
    ensures own { result.own ≡ true → IsOwn crossing.now scratch.new.stack result.kept }
    ensures writer { rows.new ≡ record rows.old { view = grown rows.old.view pass.old.view (entered result.entry (event.Crossing crossing.now result.fate)) rows.new.view } }
    ensures pass { pass.new ≡ record pass.old { view = called pass.old.view rows.new.view.history (entered result.entry (event.Crossing crossing.now result.fate)) } }
    ensures right { AllRight (opening_of lookup.now.1) rows.new.view.history }
    ensures held { pass.old.view.permits ≡ permits_of rows.old.view pass.old.view.number }
    ensures short { length rows.old.view.history < 4294967295 }
    ensures seen { IsPrefix pass.old.view.front rows.old.view.history }
    ensures falls { FallsBy (layers_after lookup.now.1 rows.old.view.history) (event.Crossing crossing.now result.fate) rows.old rows.new }
{
    // The walk isn't named, so that it is read where it was written.
    let outcome = enter(
        lookup,
        pass,
        crossing,
        &walk_now(ledger, crossing, scratch),
        permits,
        ledger,
        rows,
        scratch,
    );
    // It tells the proof that the history is right.
    let _ = ledger.policy();
    outcome
}
