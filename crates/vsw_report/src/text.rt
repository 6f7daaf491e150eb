//! Hexadecimal text at the end of a text.

ghost use Rattle.std.specs.Prelude.{◌≡◌, ◌+◌, ◌*◌, ◌/◌, ◌<◌, ◌≤◌, ◌++◌, OnOk, IfSome, take, drop, length};
ghost use Rattle.hex.specs.Hex.{encode_lower};

use crate::block::write_lanes;
use std::alloc::AllocError;

/// Writes the text of fewer than 32 bytes, those that fill no block.
fn write_few(bytes: &[u8], text: &mut [u8])
    requires bytes { length bytes.now < 32 }
    requires text { length text.old ≡ 2 * length bytes.now }
    ensures { text.new ≡ encode_lower bytes.now }
{
    let mut block = [0u8; 32];
    block[..bytes.len()].copy_from_slice(bytes);
    let mut whole = [0u8; 64];
    write_lanes(&block, 0, &mut whole);
    text.copy_from_slice(&whole[..text.len()]);
}

/// Writes the text of the block of this number where it belongs.
#[inline(always)]
fn write_block(bytes: &[u8], i: usize, text: &mut [u8])
    requires bytes { 32 * i + 32 ≤ length bytes.now }
    requires text { 64 * i + 64 ≤ length text.old }
    ensures front { take (64 * (i + 1)) text.new ≡ take (64 * i) text.old ++ encode_lower (take 32 (drop (32 * i) bytes.now)) }
    ensures long { length text.new ≡ length text.old }
{
    write_lanes(bytes, 32 * i, &mut text[64 * i..]);
}

/// Writes the text of the last 32 bytes again, or that of the bytes that fill no block.
fn write_rest(bytes: &[u8], text: &mut [u8])
    requires long { length text.old ≡ 2 * length bytes.now }
    requires front { take (64 * (length bytes.now / 32)) text.old ≡ encode_lower (take (32 * (length bytes.now / 32)) bytes.now) }
    ensures { text.new ≡ encode_lower bytes.now }
{
    if bytes.len() < 32 {
        return write_few(bytes, text);
    }
    let from = bytes.len() - 32;
    write_lanes(bytes, from, &mut text[2 * from..]);
}

/// Writes two digits for each byte over a text of that length.
pub fn write_hex(bytes: &[u8], text: &mut [u8])
    requires { length text.old ≡ 2 * length bytes.now }
    ensures { text.new ≡ encode_lower bytes.now }
{
    for i in 0..bytes.len() / 32 {
        write_block(bytes, i, text);
    }
    write_rest(bytes, text);
}

/// How long a text is with two digits more for each of so many bytes.
fn longer(len: usize, bytes: usize) -> Option<usize>
    ensures { IfSome result (λ end. end ≡ len + 2 * bytes) }
{
    len.checked_add(bytes.checked_mul(2)?)
}

/// Appends two digits for each byte.
pub fn append_hex(out: &mut Vec<u8>, bytes: &[u8]) -> Result<(), AllocError>
    ensures { OnOk result (out.new.items ≡ out.old.items ++ encode_lower bytes.now) }
{
    let len = out.len();
    match longer(len, bytes.len()) {
        Some(end) => {
            out.resize(end, 0)?;
            write_hex(bytes, &mut out[len..]);
            Ok(())
        }
        None => Err(AllocError),
    }
}
