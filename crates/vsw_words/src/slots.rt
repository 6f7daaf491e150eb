//! Where the search for a key begins.

ghost use Rattle.std.specs.Prelude.{◌≡◌, ◌*◌, ◌%◌, ◌/◌, ◌+◌, ◌<◌, ◌≤◌, ◌^◌};
ghost use Rattle.vsw_words.specs.Slot as spec;
ghost use Rattle.vsw_words.specs.Slot.{factors, weighted};

/// 2^64 over the golden ratio, an odd number (Knuth, The Art of Computer Programming, 6.4).
const GOLDEN: u64 = 0x9e37_79b9_7f4a_7c15;

/// Words of a key that may be other than 0.
const WORDS: usize = 15;

/// A factor for each of these words: see `factors` (specs/Slot.antt).
const FACTORS: [u64; WORDS] = [
    0x6a09_e667_f3bc_c909,
    0xbb67_ae85_84ca_a73b,
    0x3c6e_f372_fe94_f82b,
    0xa54f_f53a_5f1d_36f1,
    0x510e_527f_ade6_82d1,
    0x9b05_688c_2b3e_6c1f,
    0x1f83_d9ab_fb41_bd6b,
    0x5be0_cd19_137e_2179,
    0xcbbb_9d5d_c105_9ed9,
    0x629a_292a_367c_d507,
    0x9159_015a_3070_dd17,
    0x152f_ecd8_f70e_5939,
    0x6733_2667_ffc0_0b31,
    0x8eb4_4a87_6858_1511,
    0xdb0c_2e0d_64f9_8fa7,
];

/// The slot of a key: the row, of so many rows, at which the search for it begins. No product waits for another one.
#[inline(always)]
pub fn slot_of(key: &[u64; 16], rows: u32) -> u32
    requires { 8 ≤ rows }
    ensures value { result ≡ spec.slot key.now rows }
    ensures inside { result < rows }
{
    share(hash(key), rows)
}

/// The number that is as far among so many as a hash is among the numbers of 32 bits.
#[inline(always)]
fn share(hash: u32, rows: u32) -> u32
    requires { 8 ≤ rows }
    ensures value { result ≡ hash * rows / 2 ^ 32 }
    ensures inside { result < rows }
{
    (u64::from(hash) * u64::from(rows) >> 32) as u32
}

/// The hash of the words.
#[inline(always)]
fn hash(key: &[u64; 16]) -> u32
    ensures { result ≡ spec.hash key.now }
{
    (folded(total(key)).wrapping_mul(GOLDEN) >> 32) as u32
}

/// The sum of the words, each multiplied by its factor.
#[inline(always)]
fn total(key: &[u64; 16]) -> u64
    ensures { result ≡ weighted factors key.now % 2 ^ 64 }
{
    let mut total = 0;
    for place in 0..WORDS {
        total = added(total, FACTORS[place], key[place]);
    }
    total
}

/// The sum with a product added.
#[inline(always)]
fn added(total: u64, factor: u64, word: u64) -> u64
    ensures { result ≡ (total + factor * word) % 2 ^ 64 }
{
    total.wrapping_add(factor.wrapping_mul(word))
}

/// The high half of a number, put into its low half.
#[inline(always)]
fn folded(number: u64) -> u64
    ensures { result ≡ spec.folded number }
{
    number ^ number >> 32
}
