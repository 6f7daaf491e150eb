//! A host in memory.

ghost use Rattle.std.specs.Prelude.{◌≡◌, [], IsSome, ◌≤◌, ◌<◌, ◌+◌, ◌++◌, length, nat_le, not, ◌&&◌, if◌then◌else◌, is_ok};
ghost use Rattle.std.specs.Prelude.{IfOk, IsErr, IsTrue, vec_capacity};
ghost use Rattle.vsw_host.specs.Files.{are_distinct, held};
ghost use Rattle.vsw_host.specs.Outside.{DoesOpen, DoesRead, DoesPut, DoesComplain};
ghost use Rattle.vsw_host.specs.Memory.{made, openings, outside, raised, contains, fails, may_open, after_open, next_count, after_read, may_write, after_put, after_complain};

use crate::memory_file::MemoryFile;
use crate::opening::{OPENINGS, Opening, open_file, read_next};
use crate::{Failed, Host};
use std::alloc::Global;
use std::marker::Model;
use vsw_base::NoMemory;

/// A host that holds files in memory, keeps what is put and complained, and fails in the calls that
/// it is told. It never takes more memory than it has when it is made.
#[derive(Drop)]
pub struct MemoryHost {
    files: Vec<MemoryFile>,
    opened: Vec<Opening>,
    put: Vec<u8>,
    complained: Vec<u8>,
    room: usize,
    most: usize,
    failing: Vec<u64>,
    calls: u64,
    input_faults: u64,
    put_faults: u64,
    complain_faults: u64,
}

impl Model for MemoryHost {
    ghost use Rattle.vsw_host.specs.Memory.{Memory};

    ghost Value = { Memory };

    ghost use Rattle.vsw_host.specs.MemoryInside.{seen, IsSound};

    ghost view = { seen };

    ghost invariant = { IsSound };
}

impl MemoryHost {
    /// A host that holds these files, has room for `room` bytes that are put and for as many that are
    /// complained, and fails in the calls of these numbers. Calls are numbered together from 1.
    pub fn new(
        alloc: Global,
        files: Vec<MemoryFile>,
        room: usize,
        failing: Vec<u64>,
    ) -> Result<MemoryHost, NoMemory>
        requires distinct { IsTrue (are_distinct files.items) }
        ensures { IfOk result (λ host. host ≡ made files.items room failing.items) }
    {
        let Ok(opened) = Vec::with_capacity(alloc, OPENINGS) else {
            return Err(NoMemory);
        };
        let Ok(put) = Vec::with_capacity(alloc, room) else {
            return Err(NoMemory);
        };
        let Ok(complained) = Vec::with_capacity(alloc, room) else {
            return Err(NoMemory);
        };
        Ok(MemoryHost {
            files,
            opened,
            put,
            complained,
            room,
            most: usize::MAX,
            failing,
            calls: 0,
            input_faults: 0,
            put_faults: 0,
            complain_faults: 0,
        })
    }

    /// From now on one read gives at most `most` bytes. Before that the buffer alone bounds it.
    pub fn read_at_most(&mut self, most: usize)
        requires some { 0 < most }
        ensures { self.new ≡ record self.old { most = most } }
    {
        self.most = most;
    }

    /// What was put.
    pub fn written(&self) -> &[u8]
        ensures { result.now ≡ self.now.put }
    {
        &self.put
    }

    /// What was complained.
    pub fn complained(&self) -> &[u8]
        ensures { result.now ≡ self.now.complained }
    {
        &self.complained
    }
}

/// Counts a call, and answers whether it is one of those that fail.
fn next_fails(calls: &mut u64, failing: &[u64]) -> bool
    ensures fails { result ≡ contains failing.now (raised calls.old) }
    ensures calls { calls.new ≡ raised calls.old }
{
    *calls = calls.saturating_add(1);
    failing.contains(calls)
}

/// Counts a fault, and answers it.
fn failed<T>(faults: &mut u64) -> Result<T, Failed>
    ensures result_is { IsErr result }
    ensures faults { faults.new ≡ raised faults.old }
{
    *faults = faults.saturating_add(1);
    Err(Failed)
}

/// Appends the bytes where they fit the room, and answers whether they do.
fn append(room: usize, written: &mut Vec<u8>, bytes: &[u8]) -> bool
    requires room { room ≤ vec_capacity written.old }
    ensures fits { result ≡ nat_le (length written.old.items + length bytes.now) room }
    ensures written { written.new.items
        ≡ (if result then written.old.items ++ bytes.now else written.old.items) }
    ensures room { room ≤ vec_capacity written.new }
{
    written.len() <= room
        && bytes.len() <= room - written.len()
        && written.extend_from_slice(bytes).is_ok()
}

impl Host for MemoryHost {
    ghost outside = { outside };

    fn open(&mut self, name: &str) -> Result<u32, Failed>
        ensures opens { DoesOpen (outside self.old) (outside self.new) name.now result }
        ensures succeeds { is_ok result ≡ may_open self.old name.now }
        ensures quiet { self.old.failing ≡ [] → IsSome (held self.old.files name.now)
            → length self.old.opened < openings → self.new.input_faults ≡ self.old.input_faults }
        ensures after { self.new ≡ after_open self.old name.now result }
    {
        if next_fails(&mut self.calls, &self.failing) {
            return failed(&mut self.input_faults);
        }
        match open_file(&self.files, &mut self.opened, name) {
            Some(number) => Ok(number),
            None => failed(&mut self.input_faults),
        }
    }

    fn read(&mut self, file: u32, buffer: &mut [u8]) -> Result<usize, Failed>
        requires is_open { file < (outside self.old).opens }
        ensures reads { DoesRead (outside self.old) (outside self.new) file buffer.new result }
        ensures succeeds { is_ok result ≡ not (fails self.old) }
        ensures quiet { self.old.failing ≡ [] → self.new.input_faults ≡ self.old.input_faults }
        ensures count { IfOk result (λ n. n ≡ next_count self.old file (length buffer.old)) }
        ensures after { self.new ≡ after_read self.old file result }
    {
        if next_fails(&mut self.calls, &self.failing) {
            return failed(&mut self.input_faults);
        }
        Ok(read_next(
            &self.files,
            &mut self.opened,
            self.most,
            file as usize,
            buffer,
        ))
    }

    fn put(&mut self, bytes: &[u8]) -> Result<(), Failed>
        ensures puts { DoesPut (outside self.old) (outside self.new) bytes.now result }
        ensures succeeds { is_ok result ≡ may_write self.old self.old.put bytes.now }
        ensures quiet { self.old.failing ≡ [] → length self.old.put + length bytes.now ≤ self.old.room
            → self.new.put_faults ≡ self.old.put_faults }
        ensures after { self.new ≡ after_put self.old bytes.now result }
    {
        if next_fails(&mut self.calls, &self.failing) {
            return failed(&mut self.put_faults);
        }
        if append(self.room, &mut self.put, bytes) {
            Ok(())
        } else {
            failed(&mut self.put_faults)
        }
    }

    fn complain(&mut self, bytes: &[u8]) -> Result<(), Failed>
        ensures complains { DoesComplain (outside self.old) (outside self.new) bytes.now result }
        ensures succeeds { is_ok result ≡ may_write self.old self.old.complained bytes.now }
        ensures quiet { self.old.failing ≡ []
            → length self.old.complained + length bytes.now ≤ self.old.room
            → self.new.complain_faults ≡ self.old.complain_faults }
        ensures after { self.new ≡ after_complain self.old bytes.now result }
    {
        if next_fails(&mut self.calls, &self.failing) {
            return failed(&mut self.complain_faults);
        }
        if append(self.room, &mut self.complained, bytes) {
            Ok(())
        } else {
            failed(&mut self.complain_faults)
        }
    }
}
