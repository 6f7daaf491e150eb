//! Where stamps and words stand in the table.
ghost use Rattle.std.specs.Prelude.{◌≡◌, ◌<◌, ◌≤◌, ◌+◌, ◌⊎◌};
ghost use Rattle.vsw_stamps.specs.Order as order;
ghost use Rattle.vsw_table.specs.Places as spec;
ghost use Rattle.vsw_table.specs.Places.{table_size};

/// Where the near part of the first row stands. The words of a table of many rows lie 16 bytes behind the beginning of a page with the usual
/// allocators, and then each near part begins a cache line.
const FIRST: usize = 14;

/// Words of a row's near part.
const NEAR: usize = 32;

/// Words of a cache line.
pub(crate) const LINE: usize = 8;

/// Cache lines of a row's near part.
pub(crate) const NEAR_LINES: usize = NEAR / LINE;

/// Words of a row's far part.
const FAR: usize = 42;

/// Words of a table of so many rows.
pub(crate) fn size(rows: usize) -> usize
    requires { rows ≤ 16384 }
    ensures { result ≡ table_size rows }
{
    FIRST + (NEAR + FAR) * rows
}

/// Where a row's stamp stands.
#[inline(always)]
pub(crate) fn stamp_place(rows: usize, row: usize) -> usize
    requires { (row < rows) × (rows ≤ 16384) }
    ensures place { result ≡ spec.stamp_place row }
    ensures inside { result < table_size rows }
{
    FIRST + NEAR * row
}

/// The turns at which the words of a key are loaded.
const KEY_TURNS: [usize; 16] = [0, 31, 1, 2, 32, 33, 34, 35, 3, 36, 37, 38, 39, 40, 41, 42];

/// The turn at which a word is loaded.
#[inline(always)]
fn turn_of(word: usize) -> usize
    requires { word < 73 }
    ensures { result ≡ order.turn_of word }
{
    if word >= 43 {
        word
    } else if word >= 16 {
        word - 12
    } else {
        KEY_TURNS[word]
    }
}

/// Where the word of a row stands that is loaded at a turn.
#[inline(always)]
#[tactic(auto, unfolding(crate::specs::Places::turn_place))]
fn turn_place(rows: usize, row: usize, turn: usize) -> usize
    requires { (row < rows) × (turn < 73) × (rows ≤ 16384) }
    ensures place { result ≡ spec.turn_place rows row turn }
    ensures inside { result < table_size rows }
{
    if turn < NEAR - 1 {
        FIRST + NEAR * row + 1 + turn
    } else {
        FIRST + NEAR * rows + FAR * row + (turn - (NEAR - 1))
    }
}

/// Where the word of a row stands that is loaded so many turns behind `from`, in the same part of the row.
#[inline(always)]
pub(crate) fn place_behind(rows: usize, row: usize, from: usize, behind: usize) -> usize
    requires inside { (row < rows) × (from + behind < 73) × (rows ≤ 16384) }
    requires part { (from + behind < 31) ⊎ (31 ≤ from) }
    ensures place { result ≡ spec.turn_place rows row (from + behind) }
    ensures inside { result < table_size rows }
{
    turn_place(rows, row, from) + behind
}

/// Where a row's word stands.
#[inline(always)]
pub(crate) fn word_place(rows: usize, row: usize, word: usize) -> usize
    requires { (row < rows) × (word < 73) × (rows ≤ 16384) }
    ensures place { result ≡ spec.word_place rows row word }
    ensures inside { result < table_size rows }
{
    turn_place(rows, row, turn_of(word))
}
