//! What the program reaches outside of itself.

/// A call of a host failed. A count of faults, which the host's meaning shows, rose in that call.
#[derive(Clone, Copy, Debug, PartialEq, Eq)]
pub struct Failed;

/// Files to read, an output and an error output. What each call does is said of the host's meaning,
/// `outside`, which tells as much as the host knows.
pub trait Host {
    ghost use Rattle.std.specs.Prelude.{◌<◌};
    ghost use Rattle.vsw_host.specs.Outside.{Outside, DoesOpen, DoesRead, DoesPut, DoesComplain};

    ghost outside: { Self → Outside };

    /// Opens a file to read it from its first byte, and answers its number. Files that are opened are
    /// numbered from 0, and none is closed.
    fn open(&mut self, name: &str) -> Result<u32, Failed>
        ensures opens { DoesOpen (outside self.old) (outside self.new) name.now result };

    /// Reads the next bytes of an open file, as many as come at once, and answers how many. No byte is
    /// the end of the file, where the buffer isn't empty.
    fn read(&mut self, file: u32, buffer: &mut [u8]) -> Result<usize, Failed>
        requires is_open { file < (outside self.old).opens }
        ensures reads { DoesRead (outside self.old) (outside self.new) file buffer.new result };

    /// Puts bytes to the output.
    fn put(&mut self, bytes: &[u8]) -> Result<(), Failed>
        ensures puts { DoesPut (outside self.old) (outside self.new) bytes.now result };

    /// Fills the buffer with bytes that strangers can't guess, where the host has a source of such. Else it stays
    /// as it is. No answer may depend on them: of their values nothing is known.
    fn fill_secret(&self, _buffer: &mut [u8]) {}

    /// Writes bytes to the error output.
    fn complain(&mut self, bytes: &[u8]) -> Result<(), Failed>
        ensures complains { DoesComplain (outside self.old) (outside self.new) bytes.now result };
}
