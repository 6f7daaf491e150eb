//! The files of a host in memory.

ghost use Rattle.std.specs.Prelude.{◌≡◌};
ghost use Rattle.std.specs.List.{list_any};
ghost use Rattle.vsw_host.specs.Files.{is_named, place, are_distinct};

use vsw_base::{Items, Text};

/// A file that is held in memory.
#[derive(Drop)]
pub struct MemoryFile {
    pub name: Text,
    pub bytes: Items<u8>,
}

/// The place of the file of this name.
pub(crate) fn find_place(files: &[MemoryFile], name: &str) -> Option<usize>
    ensures { result ≡ place files.now name.now }
{
    files.iter().position(|file| file.name.as_str() == name)
}

fn any_named(files: &[MemoryFile], name: &str) -> bool
    ensures { result ≡ list_any (is_named name.now) files.now }
{
    files.iter().any(|file| file.name.as_str() == name)
}

/// Whether no two of the files have the same name.
pub fn are_distinct(files: &[MemoryFile]) -> bool
    ensures { result ≡ are_distinct files.now }
{
    match files {
        [] => true,
        [first, rest @ ..] => !any_named(rest, first.name.as_str()) && are_distinct(rest),
    }
}
