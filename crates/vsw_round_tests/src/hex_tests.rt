//! Bytes as hexadecimal text.

use std::alloc::Global;
use vsw_report::append_hex;

const BYTES: &[u8] = b"\x00\x09\x0a\x0f\x10\x99\xa9\xff vsw at sixteen and thirty-two";

const TEXT: &[u8] =
    b"x 00090a0f1099a9ff20767377206174207369787465656e20616e64207468697274792d74776f";

/// Whether the text is what is appended for the bytes.
fn is_appended(alloc: Global) -> bool {
    let mut out = Vec::new(alloc);
    out.extend_from_slice(b"x ").is_ok()
        && append_hex(&mut out, BYTES).is_ok()
        && out.as_slice() == TEXT
}

#[test]
fn digits_are_lower_case_and_in_order(rt: HostRuntime) {
    assert!(&rt; is_appended(rt.alloc()));
}
