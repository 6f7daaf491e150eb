//! A story of sixteen flows: a row tells how many entries touched its flow.
ghost use Rattle.std.specs.Prelude.{◌≡◌, ◌<◌, ◌++◌, ◌∷◌, [], ℕ, List, IsTrue, slice_index};
ghost use Rattle.vsw_table_tests.specs.Flows.{touches, tallied, AreTallies};

use vsw_stamps::Story;

/// An entry renews one flow, or is a command on four.
pub struct Flows;

impl Story for Flows {
    ghost use Rattle.vsw_table_tests.specs.Whole.{whole_row};
    ghost use Rattle.vsw_table_tests.specs.Flows.{IsGoodFlow};

    type Opening = ();

    type Entry = u64;

    ghost who = { λ o e. 0 };

    ghost good = { λ o h row. IsGoodFlow h row };

    ghost used = { λ front. 73 };

    fn words_used(_front: &[u64; 7]) -> usize {
        73
    }

    ghost zeros_beyond = { λ o h row is good. whole_row row };
}

/// A pseudo-random number for each place of a list.
pub fn scattered(place: u32) -> u64 {
    let a = u64::from(place).wrapping_mul(0x9e37_79b9_7f4a_7c15);
    let b = (a ^ (a >> 30)).wrapping_mul(0xbf58_476d_1ce4_e5b9);
    b ^ (b >> 27)
}

/// The entry at a place of the history: one in 64 is a command.
pub fn entry_of(place: u32) -> u64 {
    let n = scattered(place);
    if n % 64 == 0 {
        16 + n / 64 % 4
    } else {
        n / 64 % 16
    }
}

/// Whether the entry touches the flow.
fn is_touched(flow: u64, entry: u64) -> bool
    ensures { result ≡ touches flow entry }
{
    if entry < 16 {
        entry == flow
    } else {
        entry % 4 == flow % 4
    }
}

/// A flow's tally after one more entry.
fn tallied(flow: u64, entry: u64, tally: u64) -> u64
    ensures { result ≡ tallied flow entry tally }
{
    if is_touched(flow, entry) {
        tally.wrapping_add(1)
    } else {
        tally
    }
}

/// The tallies of an empty history.
pub fn no_tallies() -> [u64; 16]
    ensures { AreTallies [] result }
{
    [0; 16]
}

/// All tallies after one more entry.
pub fn count_in(tallies: &mut [u64; 16], entry: u64)
    ensures { (h : List ℕ) → AreTallies h tallies.old → AreTallies (h ++ entry ∷ []) tallies.new }
{
    for flow in 0..16usize {
        tallies[flow] = tallied(flow as u64, entry, tallies[flow]);
    }
}

/// The key of a flow's rows.
pub fn key_of(flow: u64) -> [u64; 16] {
    let mut words = [0; 16];
    words[0] = flow;
    words
}

/// A row of a flow, with its tally at five places of the body.
pub fn row_of(flow: u64, tally: u64) -> [u64; 73]
    ensures { (slice_index result 0 ≡ flow) × (slice_index result 16 ≡ tally) × (slice_index result 72 ≡ tally) }
{
    let mut words = [0; 73];
    words[0] = flow;
    words[16] = tally;
    words[30] = tally;
    words[44] = tally;
    words[58] = tally;
    words[72] = tally;
    words
}

/// Whether the body is of one row, with this tally.
pub fn is_whole(body: &[u64; 57], tally: u64) -> bool {
    body[0] == tally
        && body[14] == tally
        && body[28] == tally
        && body[42] == tally
        && body[56] == tally
}

/// Whether a row of this flow, with these two words of its body, tells the flow's tally.
pub fn is_told(tallies: &[u64; 16], flow: u64, first: u64, last: u64) -> bool
    ensures { IsTrue result → (flow < 16) × (first ≡ slice_index tallies.now flow) × (last ≡ slice_index tallies.now flow) }
{
    if flow >= 16 {
        return false;
    }
    first == tallies[flow as usize] && last == tallies[flow as usize]
}
