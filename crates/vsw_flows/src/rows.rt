//! The rows of a port.

ghost use Rattle.std.specs.Prelude.{◌≡◌, ◌≤◌, ◌<◌, ◌+◌, ◌==◌, not, ℕ, Some, true, false, length, map, slice_set, IfOk};
ghost use mathlib.Core.List.{IsPrefix};
ghost use Rattle.vsw_port.specs.Calls.{named};
ghost use Rattle.vsw_port.specs.History.{IsRight};
ghost use Rattle.vsw_policy.specs.Layer.{seen};
ghost use Rattle.vsw_policy.specs.Layers.{PolicySeen};
ghost use Rattle.vsw_rows.specs.GoodRows.{IsGoodRow, opening_of};
ghost use Rattle.vsw_rows.specs.Rows.{IsEmpty, IsFormed, IsFresh, layers_after};
ghost use Rattle.vsw_table.specs.Held.{Meets, after_entry, passed};
ghost use Rattle.vsw_table.specs.Rules.{counted_record, permits_of, row_at, stamp_at};
ghost use Rattle.vsw_flows.specs.Finding.{IsFound};
ghost use Rattle.vsw_flows.specs.Shaking.{moves_none};
ghost use Rattle.vsw_flows.specs.Flows.{AllSpared, Any, Falls, IsCurrent, NoneShaken, OthersStay, Puts, Spares};
ghost use Rattle.vsw_flows.specs.declared.places.Found.TheVariants.{Own};

use crate::falling::rows_of;
use crate::leaning::Leaning;
use crate::obeying::obey;
use crate::places::{Found, read_words, search};
use crate::putting::settle;
use crate::shaking::shake;
use crate::story::PortStory;
use std::alloc::Global;
use std::marker::Model;
use vsw_base::NoMemory;
use vsw_policy::{Command, HashSeed, Layer};
use vsw_port::Event;
use vsw_table::{Lookup, Pass, Writer};
use vsw_walk::{Looked, Wanted};

/// How many rows commands may ask for each row that is put. So what they ask costs no more than a few times what it costs to
/// put the rows, however often they come.
const ASKS: u32 = 64;

/// How many they may ask at most: each of the most rows so often.
const MOST_ASKS: u32 = 0x10_0000;

/// How many more commands may ask once a row was put.
fn more_asks(asks: u32) -> u32 {
    let more = asks.saturating_add(ASKS);
    if more > MOST_ASKS {
        return MOST_ASKS;
    }
    more
}

/// The rows of a port under their writer. Each current row is good at the layers that the history leaves, and stands at
/// the spots on which it leans, so an entry takes the stamps away of exactly those rows that it shakes.
#[derive(Drop)]
pub struct Rows {
    leaning: Leaning,
    writer: Writer<PortStory>,
    /// How many rows commands may ask whether they are spared, before others fall unasked.
    asks: u32,
}

impl Model for Rows {
    ghost use Rattle.vsw_flows.specs.Flows.{Writing};
    ghost use Rattle.vsw_flows.specs.Standing.{AreStanding};

    ghost Value = { Writing };

    ghost view = { λ s. s.writer };

    ghost invariant = { λ s. AreStanding s.writer s.leaning };
}

impl Rows {
    /// Rows of which none is current yet, with room for one look of each in each of so many layers. What they lean on
    /// is hashed from the seed.
    pub fn open(
        alloc: Global,
        writer: Writer<PortStory>,
        layers: usize,
        seed: &HashSeed,
    ) -> Result<Rows, NoMemory>
        requires none { (place : ℕ) → stamp_at writer.view.stamps place ≡ 0 }
        requires formed { (place : ℕ) → IsFormed (row_at writer.view.rows place) }
        ensures writer { IfOk result (λ rows. rows ≡ writer) }
    {
        let leaning = Leaning::open(alloc, writer.rows(), layers, seed)?;
        Ok(Rows {
            leaning,
            writer,
            asks: 0,
        })
    }

    /// Takes room for one look of each row in each of so many layers. Where it isn't there, rows are left without a stamp.
    pub fn reserve(&mut self, layers: usize) -> Result<(), NoMemory>
        ensures same { self.new ≡ self.old }
    {
        self.leaning.reserve(self.writer.rows(), layers)
    }

    /// The pass sees the history, and has `more` further permits (`Writer::meet`).
    pub fn meet(&mut self, lookup: &Lookup<PortStory>, pass: &mut Pass<PortStory>, more: u32)
        requires table { (self.old.table ≡ lookup.now.0) × (pass.old.table ≡ lookup.now.0) }
        requires room { length pass.old.view.receipts + pass.old.view.permits + more ≤ 134217728 }
        requires opens { (self.old.view.opening ≡ Some lookup.now.1) × (pass.old.view.opening ≡ Some lookup.now.1) }
        ensures writer { self.new ≡ record self.old { view = record self.old.view { kept = slice_set self.old.view.kept pass.old.view.number (pass.old.view.permits + more) } } }
        ensures pass { pass.new ≡ record pass.old { view = record pass.old.view { front = self.old.view.history; permits = pass.old.view.permits + more; shown = counted_record self.old.view.history } } }
        ensures tells { Meets (λ p e. named p.controllers e) lookup.now.1 self.new.view pass.new.view }
        ensures held { pass.old.view.permits ≡ permits_of self.old.view pass.old.view.number }
        ensures seen { IsPrefix pass.old.view.front pass.new.view.front }
    {
        self.writer.meet(lookup, pass, more);
    }

    /// The rows fall that one of the changes shakes, and no others. The layers are those that the history leaves. Afterwards
    /// the entry of a packet that makes these changes may be added.
    pub fn shake(&mut self, lookup: &Lookup<PortStory>, layers: &[Layer], changes: &[Wanted])
        requires table { self.old.table ≡ lookup.now.0 }
        ensures falls { Falls Any self.old self.new }
        ensures none { (o : PolicySeen) → self.old.view.opening ≡ Some o → map seen layers.now ≡ layers_after o self.old.view.history → NoneShaken (map seen layers.now) changes.now self.new }
        ensures others { (o : PolicySeen) → self.old.view.opening ≡ Some o → map seen layers.now ≡ layers_after o self.old.view.history → OthersStay (map seen layers.now) changes.now self.old self.new }
    {
        shake(lookup, &mut self.writer, &mut self.leaning, layers, changes);
    }

    /// The rows fall that changes shake which make pairs and take some away, and move none, and no others. Such changes shake the
    /// same rows whatever the layers are.
    pub fn shake_made(&mut self, lookup: &Lookup<PortStory>, changes: &[Wanted])
        requires table { self.old.table ≡ lookup.now.0 }
        requires moves { moves_none changes.now ≡ true }
        ensures falls { Falls Any self.old self.new }
        ensures none { (o : PolicySeen) → self.old.view.opening ≡ Some o → NoneShaken (layers_after o self.old.view.history) changes.now self.new }
        ensures others { (o : PolicySeen) → self.old.view.opening ≡ Some o → OthersStay (layers_after o self.old.view.history) changes.now self.old self.new }
    {
        shake(lookup, &mut self.writer, &mut self.leaning, &[], changes);
    }

    /// The rows fall that a command of the controller doesn't spare, or that it may not ask. The layers are those that the history leaves, before the
    /// command is obeyed. Afterwards its entry may be added.
    pub fn obey(
        &mut self,
        lookup: &Lookup<PortStory>,
        layers: &[Layer],
        controller: u16,
        command: &Command,
    )
        requires table { self.old.table ≡ lookup.now.0 }
        ensures falls { Falls Any self.old self.new }
        ensures spared { (o : PolicySeen) → self.old.view.opening ≡ Some o → map seen layers.now ≡ layers_after o self.old.view.history → AllSpared (map seen layers.now) controller command.now self.new }
    {
        obey(
            lookup,
            &mut self.writer,
            &mut self.leaning,
            &mut self.asks,
            layers,
            controller,
            command,
        );
    }

    /// Adds an entry by the pass to the history. The rows that it shakes fell before.
    pub fn advance(&mut self, lookup: &Lookup<PortStory>, pass: &mut Pass<PortStory>, entry: &Event)
        requires table { (self.old.table ≡ lookup.now.0) × (pass.old.table ≡ lookup.now.0) }
        requires entry { (named lookup.now.1.controllers entry.now ≡ pass.old.view.number) × (0 < pass.old.view.permits) }
        requires opens { (self.old.view.opening ≡ Some lookup.now.1) × (pass.old.view.opening ≡ Some lookup.now.1) }
        requires right { IsRight lookup.now.1.controllers (layers_after lookup.now.1 self.old.view.history) entry.now }
        requires spares { Spares (layers_after lookup.now.1 self.old.view.history) entry.now self.old }
        ensures writer { self.new ≡ record self.old { view = after_entry self.old.view pass.old.view entry.now } }
        ensures pass { pass.new ≡ record pass.old { view = passed pass.old.view self.new.view entry.now } }
        ensures known { IsPrefix pass.old.view.front self.old.view.history }
        ensures seen { IsPrefix pass.old.view.front pass.new.view.front }
    {
        self.writer.advance(lookup, pass, entry);
    }

    /// Puts a fresh row in the place of what stands there; answers whether there was memory for its looks. Rows that give way
    /// to it fall.
    pub fn put(
        &mut self,
        lookup: &Lookup<PortStory>,
        row: u32,
        words: &[u64; 73],
        looks: &[Looked],
    ) -> bool
        requires table { (self.old.table ≡ lookup.now.0) × (row < lookup.now.2) }
        requires opens { self.old.view.opening ≡ Some lookup.now.1 }
        requires fresh { IsFresh (layers_after lookup.now.1 self.old.view.history) words.now looks.now }
        ensures puts { Puts self.old self.new row words.now result }
    {
        // They tell the proof that the row is one of those that are counted.
        let _ = rows_of(lookup, &self.writer);
        if !settle(lookup, &mut self.writer, &mut self.leaning, row, looks) {
            return false;
        }
        let _ = rows_of(lookup, &self.writer);
        self.writer.put(lookup, row, words);
        self.asks = more_asks(self.asks);
        true
    }

    /// Whether the row is current.
    pub fn is_current(&mut self, lookup: &Lookup<PortStory>, row: u32) -> bool
        requires table { (self.old.table ≡ lookup.now.0) × (row < lookup.now.2) }
        ensures same { self.new ≡ self.old }
        ensures current { result ≡ not (stamp_at self.old.view.stamps row == 0) }
        ensures short { length self.old.view.history < 4294967295 }
    {
        self.writer.is_current(lookup, row)
    }

    /// Looks at the eight places at which a row with these key words may stand.
    pub fn find(&mut self, lookup: &Lookup<PortStory>, key: &[u64; 16]) -> Found
        requires table { self.old.table ≡ lookup.now.0 }
        requires opens { self.old.view.opening ≡ Some lookup.now.1 }
        ensures same { self.new ≡ self.old }
        ensures found { IsFound lookup.now.2 key.now self.old result }
        ensures good { (place : ℕ) → result ≡ Own place → IsGoodRow (opening_of lookup.now.1) self.old.view.history (row_at self.old.view.rows place) }
    {
        search(&mut self.writer, lookup, key)
    }

    /// Whether a row, current or not, is empty. Only its first word is read.
    pub fn is_empty(&mut self, lookup: &Lookup<PortStory>, row: u32) -> bool
        requires table { (self.old.table ≡ lookup.now.0) × (row < lookup.now.2) }
        ensures same { self.new ≡ self.old }
        ensures empty { result ≡ true → IsEmpty (row_at self.old.view.rows row) }
        ensures filled { result ≡ false → IsEmpty (row_at self.old.view.rows row) → ⊥ }
    {
        match self.writer.word(lookup, row, 0) {
            0 => true,
            _ => false,
        }
    }

    /// The words of a row, current or not. Those of a current one are good.
    pub fn words(&mut self, lookup: &Lookup<PortStory>, row: u32, out: &mut [u64; 73])
        requires table { (self.old.table ≡ lookup.now.0) × (row < lookup.now.2) }
        requires opens { self.old.view.opening ≡ Some lookup.now.1 }
        ensures same { self.new ≡ self.old }
        ensures words { out.new ≡ row_at self.old.view.rows row }
        ensures formed { IsFormed out.new }
        ensures good { IsCurrent self.old row → IsGoodRow (opening_of lookup.now.1) self.old.view.history out.new }
    {
        read_words(&mut self.writer, lookup, row, out);
    }
}
