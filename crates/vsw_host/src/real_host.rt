//! The host that is really there: files of the system, standard output and standard error.

use crate::host::{Failed, Host};
use crate::retrying::{read_some, write_whole};
use std::alloc::Global;
use std::fs;
use std::fs::File;
use std::random::RandomSource;

/// Files, standard output and standard error. It counts its faults, and tells no contents: that the
/// system reads and writes what it is asked to is trusted.
#[derive(Drop)]
pub struct RealHost {
    rt: HostRuntime,
    files: Vec<File>,
    input_faults: u64,
    put_faults: u64,
    complain_faults: u64,
}

impl RealHost {
    ghost use Rattle.std.specs.Prelude.{◌≡◌};
    ghost use Rattle.vsw_host.specs.Real.{outside, untouched};

    /// A host on which nothing was opened, put or complained.
    pub fn new(alloc: Global, rt: HostRuntime) -> RealHost
        ensures { outside result ≡ untouched }
    {
        RealHost {
            rt,
            files: Vec::new(alloc),
            input_faults: 0,
            put_faults: 0,
            complain_faults: 0,
        }
    }
}

impl Host for RealHost {
    ghost use Rattle.vsw_host.specs.Real.{outside};

    ghost outside = { outside };

    fn open(&mut self, name: &str) -> Result<u32, Failed> {
        if let Ok(number) = u32::try_from(self.files.len())
            && let Ok(file) = fs::open(&self.rt, name)
            && self.files.push(file).is_ok()
        {
            return Ok(number);
        }
        self.input_faults = self.input_faults.saturating_add(1);
        Err(Failed)
    }

    fn read(&mut self, file: u32, buffer: &mut [u8]) -> Result<usize, Failed> {
        match read_some(&mut self.files[file as usize], buffer) {
            Ok(count) => Ok(count),
            Err(_) => {
                self.input_faults = self.input_faults.saturating_add(1);
                Err(Failed)
            }
        }
    }

    fn fill_secret(&self, buffer: &mut [u8]) {
        // A system without a source of random bytes leaves them as they are.
        let _ = self.rt.fill_bytes(buffer);
    }

    fn put(&mut self, bytes: &[u8]) -> Result<(), Failed> {
        let written = write_whole(&mut self.rt.stdout(), bytes);
        if written.is_err() {
            self.put_faults = self.put_faults.saturating_add(1);
        }
        written
    }

    fn complain(&mut self, bytes: &[u8]) -> Result<(), Failed> {
        let written = write_whole(&mut self.rt.stderr(), bytes);
        if written.is_err() {
            self.complain_faults = self.complain_faults.saturating_add(1);
        }
        written
    }
}
