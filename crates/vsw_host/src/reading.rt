//! Reading a file whole.

ghost use Rattle.std.specs.Prelude.{◌≡◌, [], IfOk, vec_len};
ghost use Rattle.vsw_host.specs.Reading.{ReadsFile};

use crate::host::Host;
use std::alloc::{AllocError, Global};

/// Bytes that are asked for at a time.
pub(crate) const PIECE: usize = 65_536;

/// How the reading of a file ended.
#[derive(Clone, Copy, Debug, PartialEq, Eq)]
pub enum ReadEnd {
    /// At the end of the file.
    Whole,
    /// An `open` or a `read` failed.
    Fault,
    /// More bytes than the limit were read.
    Long,
    /// There was no memory for the next bytes.
    Memory,
}

/// So many zero bytes.
pub(crate) fn zeros(alloc: Global, count: usize) -> Result<Vec<u8>, AllocError>
    ensures { IfOk result (λ v. vec_len v ≡ count) }
{
    vec![in alloc; 0; count]
}

/// Reads the file of this name into `got`, up to a limit in bytes. It takes memory for one piece, and
/// for what it gets.
pub fn read_file<H: Host>(host: &mut H, name: &str, limit: u64, got: &mut Vec<u8>) -> ReadEnd
    requires empty { got.old.items ≡ [] }
    ensures reads { ReadsFile limit (H.outside host.old) (H.outside host.new) name.now got.new.items result }
{
    let Ok(file) = host.open(name) else {
        return ReadEnd::Fault;
    };
    let Ok(mut piece) = zeros(*got.allocator(), PIECE) else {
        return ReadEnd::Memory;
    };
    let buffer = piece.as_mut_slice();
    while got.len() as u64 <= limit {
        let Ok(count) = host.read(file, buffer) else {
            return ReadEnd::Fault;
        };
        if count == 0 {
            return ReadEnd::Whole;
        }
        if got.extend_from_slice(&buffer[..count]).is_err() {
            return ReadEnd::Memory;
        }
    }
    ReadEnd::Long
}
