//! Numbers as words.

ghost use Rattle.std.specs.Prelude.{◌≡◌};
ghost use Rattle.vsw_run.specs.Plain.{is_plain};
ghost use Rattle.vsw_run.specs.Words.{number_in};

/// No sign leads, and no zero in front of other digits. `parse` takes both.
fn is_plain(word: &[u8]) -> bool
    ensures { result ≡ is_plain word.now }
{
    match word {
        [] => false,
        [first] => *first != b'+',
        [first, _, ..] => *first != b'+' && *first != b'0',
    }
}

/// The number that the word is in decimal.
#[tactic(auto, using(crate::proofs::Decimals::not_plain, crate::proofs::Decimals::not_parsed))]
pub fn read_number(word: &str, least: u32, most: u32) -> Option<u32>
    ensures { result ≡ number_in least most word.now }
{
    if !is_plain(word.as_bytes()) {
        return None;
    }
    let n = word.parse::<u32>().ok()?;
    if least <= n && n <= most {
        Some(n)
    } else {
        None
    }
}
