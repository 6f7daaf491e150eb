//! The lookup, its writer, its passes and their notes.
ghost use Rattle.std.specs.Prelude.{◌≡◌, ◌≢◌, ◌+◌, ◌<◌, ◌≤◌, ◌++◌, [], ◌∷◌, ℕ, ◌%◌, ◌*◌, ◌==◌, not, replicate, slice_index_or, slice_set, true, false, length, IfOk, Some, Bool};
ghost use mathlib.Core.List.{IsPrefix};
ghost use Rattle.vsw_table.specs.Places.{table_size};
ghost use Rattle.vsw_table.specs.Rules.{permits_of, first_view, one_more, newcomer, stamp_at, row_at, counted_record};
ghost use Rattle.vsw_table.specs.Steps.{shaken};
ghost use Rattle.vsw_table.specs.Held.{Meets, after_entry, passed, renewed, put_in, IsRead, FoundNear, MissedNear};
ghost use Rattle.vsw_table.specs.Answers.{IfHit, IfMiss};

use crate::look::{count, look_from};
use crate::place::{LINE, NEAR_LINES, size, stamp_place};
use crate::put::{put_row, renew_row, shake_row, stamp_of, word_of};
use crate::rule::{Kept, Key, More, Tell};
use crate::steps::{add, grant, lend, part};
use crate::view::View;
use atomic_table::{Seat, Table};
use std::alloc::{AllocError, Global};
use std::marker::Model;
use std::snapshot::Snapshot;
use vsw_base::NoMemory;
use vsw_stamps::Story;

/// What a look found at a load of word 0, which counted `count` entries.
#[derive(Drop, Clone, Copy)]
pub enum Look {
    /// A row with the key, which had one stamp before and after that load.
    Hit { count: u32 },
    /// None of the eight rows was seen to have a stamp that stays and the key.
    Miss { count: u32 },
}

/// The rows of one history. Any thread may `look`, with a pass of its own; only the holder of the writer
/// stores. A row may be taken away and written while it is read, so what was read counts only if the row's stamp, loaded
/// again, is what it was. The load of word 0 between the two is the moment of the answer.
#[derive(Drop)]
pub struct Lookup<S: Story> {
    rows: u32,
    table: Table<S::Entry, View<S::Opening, S::Entry>, Key<S::Opening>, Kept<S>, Global>,
}

impl<S: Story> Model for Lookup<S> {
    ghost use Rattle.std.specs.Prelude.{◌≡◌, ◌≤◌, ℕ};
    ghost use Rattle.atomic_table.specs.Seated.{TableId};
    ghost use Rattle.vsw_table.specs.Places.{table_size};

    ghost Value = { TableId × S.Opening × ℕ };

    ghost view = { λ l. (l.table.shared.table_id, l.table.shared.key.opening.value, l.rows) };

    ghost invariant = { λ l. (l.table.shared.table_id.words ≡ table_size l.rows) × (8 ≤ l.rows) × (l.rows ≤ 16384) × (l.rows ≡ l.table.shared.key.rows) × (l.table.shared.table_id.slots ≡ 0) };
}

/// The right to add to the history and to store rows.
#[derive(Drop)]
pub struct Writer<S: Story> {
    rows: u32,
    given: u64,
    seat: Seat<S::Entry, View<S::Opening, S::Entry>>,
}

impl<S: Story> Model for Writer<S> {
    ghost use Rattle.std.specs.Prelude.{◌≡◌, ◌≤◌, [], true};
    ghost use Rattle.vsw_table.specs.Places.{table_size};
    ghost use Rattle.vsw_table.specs.Rules.{HasRows};
    ghost use Rattle.vsw_table.specs.Held.{Held, IsWriter};

    ghost Value = { Held S.Opening S.Entry };

    ghost view = { λ w. record { table = w.seat.table_id; view = w.seat.me.0 } };

    ghost invariant = { λ w. IsWriter w.seat.me.0 × (w.seat.me.1 ≡ []) × HasRows w.rows w.seat.me.0.stamps w.seat.me.0.rows × (w.seat.table_id.words ≡ table_size w.rows) × (w.rows ≤ 16384) × (w.given ≡ w.seat.me.0.given) × (w.seat.me.0.live ≡ true) };
}

/// What one caller has seen of the history, which entries are its own, and how many more it may add.
#[derive(Drop)]
pub struct Pass<S: Story> {
    seat: Seat<S::Entry, View<S::Opening, S::Entry>>,
}

impl<S: Story> Model for Pass<S> {
    ghost use Rattle.std.specs.Prelude.{◌≡◌, ◌+◌, ◌≤◌, length, []};
    ghost use Rattle.vsw_table.specs.Held.{Held, IsPass};

    ghost Value = { Held S.Opening S.Entry };

    ghost view = { λ w. record { table = w.seat.table_id; view = w.seat.me.0 } };

    ghost invariant = { λ w. IsPass w.seat.me.0 × (w.seat.me.1 ≡ []) × (length w.seat.me.0.receipts + w.seat.me.0.permits ≤ 134217728) };
}

/// What a pass had seen, for another pass to learn.
#[derive(Drop)]
pub struct Note<S: Story> {
    seat: Seat<S::Entry, View<S::Opening, S::Entry>>,
}

impl<S: Story> Model for Note<S> {
    ghost use Rattle.std.specs.Prelude.{◌≡◌, []};
    ghost use Rattle.vsw_table.specs.Held.{Held, IsNote};

    ghost Value = { Held S.Opening S.Entry };

    ghost view = { λ w. record { table = w.seat.table_id; view = w.seat.me.0 } };

    ghost invariant = { λ w. IsNote w.seat.me.0 × (w.seat.me.1 ≡ []) };
}

/// A lookup and its writer.
#[derive(Drop)]
pub struct Opened<S: Story> {
    pub lookup: Lookup<S>,
    pub writer: Writer<S>,
}

/// The words of a new table: no entries, and all stamps and words 0.
fn first_words(alloc: Global, rows: u32) -> Result<Vec<u64>, AllocError>
    requires { rows ≤ 16384 }
    ensures { IfOk result (λ v. v.items ≡ 4294967296 ∷ replicate (13 + 74 * rows) 0) }
{
    let mut words = Vec::new(alloc);
    words.push(1 << 32)?;
    words.resize(size(rows as usize), 0)?;
    Ok(words)
}

impl<S: Story> Lookup<S> {
    /// A lookup of this many rows, none of which has a stamp, and the right to write it.
    pub fn open(alloc: Global, rows: u32, opening: &S::Opening) -> Result<Opened<S>, NoMemory>
        requires { (8 ≤ rows) × (rows ≤ 16384) }
        ensures { IfOk result (λ o. (o.lookup.1 ≡ opening.now) × (o.lookup.2 ≡ rows) × (o.writer.table ≡ o.lookup.0) × (o.writer.view ≡ first_view opening.now rows)) }
    {
        let Ok(words) = first_words(alloc, rows) else {
            return Err(NoMemory);
        };
        let key = Key {
            opening: Snapshot::of(opening),
            rows,
        };
        match Table::of_words(alloc, words.as_slice(), &key) {
            Ok((table, seat)) => Ok(Opened {
                lookup: Lookup { rows, table },
                writer: Writer {
                    rows,
                    given: 0,
                    seat,
                },
            }),
            Err(_) => Err(NoMemory),
        }
    }

    /// How many rows there are.
    pub fn rows(&self) -> u32
        ensures rows { result ≡ self.now.2 }
        ensures range { (8 ≤ result) × (result ≤ 16384) }
        ensures table { self.now.0.words ≡ table_size result }
    {
        self.rows
    }

    /// Looks for a row with this key among the eight from `slot` on, each by itself. After a hit `body` is the rest of the row that was found, and what
    /// it holds after a miss isn't said. It waits for nobody: there are at most 8 * (1 + 73 + 2) + 1 loads.
    pub fn look(&self, pass: &mut Pass<S>, slot: u32, key: &[u64; 16], body: &mut [u64; 57]) -> Look
        requires { (pass.old.table ≡ self.now.0) × (slot < self.now.2) × (pass.old.view.opening ≡ Some self.now.1) }
        ensures same { IsRead pass.old.view pass.new.view × (pass.new.table ≡ pass.old.table) }
        ensures hit { IfHit result (λ n. (length pass.new.view.front ≡ n) × S.good self.now.1 pass.new.view.front (key.now ++ body.new)) }
        ensures found { IfHit result (λ n. FoundNear S.used (key.now ++ body.new) self.now.2 slot pass.new.view.last) }
        ensures begun { pass.old.view.looks < pass.new.view.looks }
        ensures miss { IfMiss result (λ n. (length pass.new.view.front ≡ n) × MissedNear key.now self.now.2 slot pass.new.view.last) }
    {
        let (found, count) = look_from(
            &self.table.shared,
            &mut pass.seat,
            self.rows as usize,
            slot as usize,
            key,
            body,
        );
        if found {
            Look::Hit {
                count: count as u32,
            }
        } else {
            Look::Miss {
                count: count as u32,
            }
        }
    }

    /// Loads a word of each line of the near part of the row at `slot`, so that they are at hand when a look comes to it. It changes nothing and tells
    /// nothing, so the slot may be guessed; one that is no row's is passed over.
    pub fn touch(&self, slot: u32) {
        if slot < self.rows {
            let first = stamp_place(self.rows as usize, slot as usize);
            for line in 0..NEAR_LINES {
                let _ = self.table.shared.peek(first + LINE * line);
            }
        }
    }

    /// How many entries there are.
    pub fn now(&self, pass: &mut Pass<S>) -> u32
        requires { pass.old.table ≡ self.now.0 }
        ensures same { pass.new ≡ record pass.old { view = record pass.old.view { front = pass.new.view.front; shown = pass.new.view.shown } } }
        ensures later { IsPrefix pass.old.view.front pass.new.view.front }
        ensures count { result ≡ length pass.new.view.front }
    {
        (count(&self.table.shared, &mut pass.seat) % (1 << 32)) as u32
    }
}

impl<S: Story> Pass<S> {
    /// The entries and permits of a pass are few together, so it can always `meet` without further permits.
    pub fn bound(&self)
        ensures few { length self.now.view.receipts + self.now.view.permits ≤ 134217728 }
    {
        // It tells the proof what a pass keeps.
        let _ = &self.seat;
    }

    /// What the pass has seen, to be handed to another.
    pub fn note(&mut self, lookup: &Lookup<S>) -> Note<S>
        requires { self.old.table ≡ lookup.now.0 }
        ensures same { self.new ≡ self.old }
        ensures note { (result.view.front ≡ self.old.view.front) × (result.table ≡ self.old.table) }
    {
        Note {
            seat: lookup.table.shared.split_seat::<Tell>(&mut self.seat),
        }
    }

    /// The pass has seen what the note tells.
    pub fn learn(&mut self, lookup: &Lookup<S>, note: Note<S>)
        requires { (self.old.table ≡ lookup.now.0) × (note.table ≡ lookup.now.0) }
        ensures same { self.new ≡ record self.old { view = record self.old.view { front = self.new.view.front; shown = self.new.view.shown } } }
        ensures later { IsPrefix self.old.view.front self.new.view.front }
        ensures told { IsPrefix note.view.front self.new.view.front }
    {
        let Note { seat } = note;
        lookup.table.shared.join_seat::<Tell>(&mut self.seat, seat);
        count(&lookup.table.shared, &mut self.seat);
    }
}

impl<S: Story> Writer<S> {
    /// One pass more, which has seen the writer's history.
    pub fn pass(&mut self, lookup: &Lookup<S>) -> Pass<S>
        requires { (self.old.table ≡ lookup.now.0) × (self.old.view.passes < 24) }
        ensures writer { self.new ≡ record self.old { view = one_more self.old.view } }
        ensures pass { result ≡ record self.old { view = newcomer self.old.view } }
    {
        Pass {
            seat: lookup.table.shared.split_seat::<More>(&mut self.seat),
        }
    }

    /// The pass sees the writer's history, and has `more` further permits.
    pub fn meet(&mut self, lookup: &Lookup<S>, pass: &mut Pass<S>, more: u32)
        requires table { (self.old.table ≡ lookup.now.0) × (pass.old.table ≡ lookup.now.0) }
        requires room { length pass.old.view.receipts + pass.old.view.permits + more ≤ 134217728 }
        requires opens { (self.old.view.opening ≡ Some lookup.now.1) × (pass.old.view.opening ≡ Some lookup.now.1) }
        ensures writer { self.new ≡ record self.old { view = record self.old.view { kept = slice_set self.old.view.kept pass.old.view.number (pass.old.view.permits + more) } } }
        ensures pass { pass.new ≡ record pass.old { view = record pass.old.view { front = self.old.view.history; permits = pass.old.view.permits + more; shown = counted_record self.old.view.history } } }
        ensures tells { Meets S.who lookup.now.1 self.new.view pass.new.view }
        ensures held { pass.old.view.permits ≡ permits_of self.old.view pass.old.view.number }
        ensures seen { IsPrefix pass.old.view.front pass.new.view.front }
    {
        let shared = &lookup.table.shared;
        lend(shared, &mut self.seat, &mut pass.seat);
        grant(shared, &mut self.seat, more);
        pass.seat = part(shared, &mut self.seat);
    }

    /// Adds an entry by the pass to the history. The stamps of all rows that it makes bad were taken away before: where one is taken away without
    /// need a packet is walked once more, and where one were left the row would answer by what was before.
    pub fn advance(&mut self, lookup: &Lookup<S>, pass: &mut Pass<S>, entry: &S::Entry)
        requires table { (self.old.table ≡ lookup.now.0) × (pass.old.table ≡ lookup.now.0) }
        requires entry { (S.who lookup.now.1 entry.now ≡ pass.old.view.number) × (0 < pass.old.view.permits) }
        requires opens { (self.old.view.opening ≡ Some lookup.now.1) × (pass.old.view.opening ≡ Some lookup.now.1) }
        requires stays { (r : ℕ) → stamp_at self.old.view.stamps r ≢ 0 → S.good lookup.now.1 (self.old.view.history ++ entry.now ∷ []) (row_at self.old.view.rows r) }
        ensures writer { self.new ≡ record self.old { view = after_entry self.old.view pass.old.view entry.now } }
        ensures pass { pass.new ≡ record pass.old { view = passed pass.old.view self.new.view entry.now } }
        ensures known { IsPrefix pass.old.view.front self.old.view.history }
        ensures seen { IsPrefix pass.old.view.front pass.new.view.front }
    {
        let shared = &lookup.table.shared;
        lend(shared, &mut self.seat, &mut pass.seat);
        let word = grant(shared, &mut self.seat, 0);
        add(shared, &mut self.seat, word, entry);
        pass.seat = part(shared, &mut self.seat);
    }

    /// How many rows there are.
    pub fn rows(&self) -> u32
        ensures stamps { result ≡ length self.now.view.stamps }
        ensures words { result ≡ length self.now.view.rows }
        ensures table { self.now.table.words ≡ table_size result }
    {
        self.rows
    }

    /// Whether the row has a stamp. What is loaded tells as well that the history is short.
    pub fn is_current(&mut self, lookup: &Lookup<S>, row: u32) -> bool
        requires table { (self.old.table ≡ lookup.now.0) × (row < lookup.now.2) }
        ensures same { self.new ≡ self.old }
        ensures current { result ≡ not (stamp_at self.old.view.stamps row == 0) }
        ensures short { length self.old.view.history < 4294967295 }
    {
        stamp_of(
            &lookup.table.shared,
            &mut self.seat,
            self.rows as usize,
            row as usize,
        ) != 0
    }

    /// The word at a place of the row.
    pub fn word(&mut self, lookup: &Lookup<S>, row: u32, place: u32) -> u64
        requires table { (self.old.table ≡ lookup.now.0) × (row < lookup.now.2) }
        requires place { place < 73 }
        ensures same { self.new ≡ self.old }
        ensures word { result ≡ slice_index_or (row_at self.old.view.rows row) place 0 }
        ensures wide { length (row_at self.old.view.rows row) ≡ 73 }
    {
        word_of(
            &lookup.table.shared,
            &mut self.seat,
            self.rows as usize,
            row as usize,
            place as usize,
        )
    }

    /// Which of the eight rows from `slot` on gives way where all have a stamp: the count of stamps given tells, so rows that are put one after
    /// another don't meet in one place. Any row is right to give way; one that was in use costs a walk.
    pub fn victim(&self, slot: u32) -> u32
        requires slot { slot < length self.now.view.rows }
        ensures row { result ≡ (slot + self.now.view.given % 8) % length self.now.view.rows }
        ensures inside { result < length self.now.view.rows }
    {
        (slot + (self.given % 8) as u32) % self.rows
    }

    /// Takes the row's stamp away: no look finds it afterwards. That is right at any time; where the row was good it costs a walk.
    pub fn shake(&mut self, lookup: &Lookup<S>, row: u32)
        requires table { (self.old.table ≡ lookup.now.0) × (row < lookup.now.2) }
        ensures { self.new ≡ record self.old { view = shaken self.old.view row } }
    {
        shake_row(
            &lookup.table.shared,
            &mut self.seat,
            self.rows as usize,
            row as usize,
        );
    }

    /// Makes the row's words these, and gives it a fresh stamp, if one is left. Its stamp is 0 while it is written, so it may be a row in use.
    /// Words that the row has already aren't stored.
    pub fn put(&mut self, lookup: &Lookup<S>, row: u32, words: &[u64; 73])
        requires table { (self.old.table ≡ lookup.now.0) × (row < lookup.now.2) }
        requires good { S.good lookup.now.1 self.old.view.history words.now }
        ensures { self.new ≡ record self.old { view = put_in self.old.view row words.now } }
    {
        let shared = &lookup.table.shared;
        let (rows, row) = (self.rows as usize, row as usize);
        shake_row(shared, &mut self.seat, rows, row);
        put_row(shared, &mut self.seat, rows, row, words);
        self.given = renew_row(shared, &mut self.seat, self.given, rows, row);
    }

    /// Gives a row without a stamp a fresh one, if one is left, with the words that it has.
    pub fn stamp(&mut self, lookup: &Lookup<S>, row: u32)
        requires table { (self.old.table ≡ lookup.now.0) × (row < lookup.now.2) }
        requires zero { stamp_at self.old.view.stamps row ≡ 0 }
        requires good { S.good lookup.now.1 self.old.view.history (row_at self.old.view.rows row) }
        ensures { self.new ≡ record self.old { view = renewed self.old.view row } }
    {
        let shared = &lookup.table.shared;
        let (rows, row) = (self.rows as usize, row as usize);
        self.given = renew_row(shared, &mut self.seat, self.given, rows, row);
    }
}
