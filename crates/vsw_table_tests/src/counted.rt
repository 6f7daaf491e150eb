//! A story whose rows name how many entries there are.
ghost use Rattle.std.specs.Prelude.{◌≡◌, slice_index};

use vsw_stamps::{Story, TestStory};

/// Entries are numbers; a row is good where its word 0 is the number of entries.
pub struct Counted;

impl Story for Counted {
    ghost use Rattle.std.specs.Prelude.{◌≡◌, slice_index, length};
    ghost use Rattle.vsw_table_tests.specs.Whole.{whole_row};

    type Opening = ();

    type Entry = u64;

    ghost who = { λ o e. 0 };

    ghost good = { λ o h row. slice_index row 0 ≡ length h };

    ghost used = { λ front. 73 };

    fn words_used(_front: &[u64; 7]) -> usize {
        73
    }

    ghost zeros_beyond = { λ o h row is good. whole_row row };
}

impl TestStory for Counted {
    ghost use Rattle.std.specs.Prelude.{◌≡◌, ◌==◌, slice_index, length};
    ghost use Rattle.vsw_table_tests.specs.Whole.{equal_is, is_equal};

    ghost test = { λ h row. slice_index row 0 == length h };

    fn is_good(entries: &[u64], row: &[u64; 73]) -> bool {
        row[0] == entries.len() as u64
    }

    ghost judges = { λ o h row. (equal_is (slice_index row 0) (length h), is_equal (slice_index row 0) (length h)) };
}

/// A row that is good after `count` entries, with the number 5 in its key and 6 in its body.
pub fn row(count: u64) -> [u64; 73]
    ensures { slice_index result 0 ≡ count }
{
    let mut words = [0; 73];
    words[0] = count;
    words[1] = 5;
    words[72] = 6;
    words
}

/// The key of `row(count)`.
pub fn key(count: u64) -> [u64; 16] {
    let mut words = [0; 16];
    words[0] = count;
    words[1] = 5;
    words
}
