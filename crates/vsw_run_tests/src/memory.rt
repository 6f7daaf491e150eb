//! The files and the words of runs over the host in memory.

use std::alloc::{AllocError, Global};
use vsw_base::{Items, Text};
use vsw_host::MemoryFile;
use vsw_run::Word;

/// A capture's header: little-endian, microseconds, version 2.4, Ethernet (libpcap file format 2.4).
pub const HEADER: &[u8] =
    b"\xd4\xc3\xb2\xa1\x02\x00\x04\x00\x00\x00\x00\x00\x00\x00\x00\x00\x00\x00\x04\x00\x01\x00\x00\x00";

/// The words of a run by one worker.
pub const FORWARD: &[&str] = &["vsw", "forward", "policy", "commands", "trace"];

/// The words of the same run by `stream`.
pub const STREAM: &[&str] = &["vsw", "stream", "policy", "commands", "trace"];

/// A capture without packets.
pub fn empty_trace(alloc: Global) -> Result<Vec<u8>, AllocError> {
    HEADER.to_vec(alloc)
}

/// These texts, one after another.
pub fn text_of(alloc: Global, pieces: &[&str]) -> Result<Vec<u8>, AllocError> {
    let mut bytes = Vec::new(alloc);
    for piece in pieces {
        bytes.extend_from_slice(piece.as_bytes())?;
    }
    Ok(bytes)
}

/// A file of this name with these bytes.
pub fn file(alloc: Global, name: &str, bytes: Vec<u8>) -> Result<MemoryFile, AllocError> {
    Ok(MemoryFile {
        name: Text::of(name.to_string(alloc)?),
        bytes: Items::of(bytes),
    })
}

/// These words of a command line.
pub fn words_of(alloc: Global, texts: &[&str]) -> Result<Vec<Word>, AllocError> {
    let mut words = Vec::new(alloc);
    for text in texts {
        words.push(Word::of(text.to_string(alloc)?))?;
    }
    Ok(words)
}
