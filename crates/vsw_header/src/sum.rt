//! The Internet checksum (RFC 1071). Eight bytes are added at a time as one number, and the sum is
//! folded to a word at the end: in one's complement that gives the sum of the words (section 2).

ghost use Rattle.std.specs.Prelude.{◌≡◌, ◌≤◌, ◌<◌, ◌^◌, ◌+◌, ◌-◌, ◌++◌, length, sum, drop};
ghost use Rattle.vsw_header.specs.Sum.{checksum, pseudo_words, words_of};
ghost use Rattle.vsw_header.specs.Fold.{fold_of};

use vsw_base::Ip4;

/// Bytes that are added at a time.
const STEP: usize = 8;

/// The sum with a number added, in one's complement: a carry out of the highest bit is added at the
/// lowest.
#[inline(always)]
pub(crate) fn plus(sum: u64, number: u64) -> u64
    ensures { fold_of result ≡ fold_of (sum + number) }
{
    let low = sum.wrapping_add(number);
    if low < number { low + 1 } else { low }
}

/// The complement of the word that the sum folds to. A sum to which nothing was added is a word.
#[inline(always)]
pub(crate) fn complement(sum: u64) -> u16
    ensures { result ≡ 65535 - fold_of sum }
{
    if sum < 0x1_0000 {
        0xffff - sum as u16
    } else {
        0xfffe - ((sum - 1) % 0xffff) as u16
    }
}

/// The number that the first eight bytes make, which folds to the same word as the sum of their
/// words.
fn front(bytes: &[u8]) -> u64
    requires { 8 ≤ length bytes.now }
    ensures { fold_of (result + sum (words_of (drop 8 bytes.now)))
        ≡ fold_of (sum (words_of bytes.now)) }
{
    u64::from_be_bytes([
        bytes[0], bytes[1], bytes[2], bytes[3], bytes[4], bytes[5], bytes[6], bytes[7],
    ])
}

/// The number that fewer than eight bytes make with zero bytes after them, which folds to the same
/// word as the sum of their words.
fn rest(bytes: &[u8]) -> u64
    requires { length bytes.now < 8 }
    ensures { fold_of result ≡ fold_of (sum (words_of bytes.now)) }
{
    let mut last = [0; STEP];
    last[..bytes.len()].copy_from_slice(bytes);
    front(&last)
}

/// The sum with the words of the bytes added.
fn added(start: u64, bytes: &[u8]) -> u64
    ensures { fold_of result ≡ fold_of (start + sum (words_of bytes.now)) }
{
    let mut sum = start;
    for i in 0..bytes.len() / STEP {
        sum = plus(sum, front(&bytes[STEP * i..]));
    }
    plus(sum, rest(&bytes[bytes.len() / STEP * STEP..]))
}

/// The checksum of the bytes; an odd last byte counts with a zero byte after it.
pub fn fresh(bytes: &[u8]) -> u16
    ensures { result ≡ checksum (words_of bytes.now) }
{
    complement(added(0, bytes))
}

/// The checksum of a TCP or UDP packet's bytes with the pseudo-header before them (RFC 9293,
/// section 3.1; RFC 768).
pub fn pseudo(src: Ip4, dst: Ip4, proto: u8, bytes: &[u8]) -> u16
    requires { length bytes.now < 2 ^ 16 }
    ensures { result ≡ checksum (pseudo_words src dst proto (length bytes.now) ++ words_of bytes.now) }
{
    let header = u64::from(src.number())
        + u64::from(dst.number())
        + u64::from(proto)
        + bytes.len() as u64;
    complement(added(header, bytes))
}
