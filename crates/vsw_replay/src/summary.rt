//! Printing the summary.

ghost use Rattle.std.specs.Prelude.{◌≡◌, ◌++◌, OnOk, codes, decimal};
ghost use Rattle.vsw_promise.specs.Summary as spec;

use crate::Tally;
use itoa::Buffer;
use vsw_base::NoMemory;

fn put(out: &mut Vec<u8>, bytes: &[u8]) -> Result<(), NoMemory>
    ensures { OnOk result (out.new.items ≡ out.old.items ++ bytes.now) }
{
    match out.extend_from_slice(bytes) {
        Ok(()) => Ok(()),
        Err(_) => Err(NoMemory),
    }
}

fn put_number(out: &mut Vec<u8>, number: u64) -> Result<(), NoMemory>
    ensures { OnOk result (out.new.items ≡ out.old.items ++ decimal number) }
{
    let mut buffer = Buffer::new();
    put(out, buffer.format(number).as_bytes())
}

fn count_line(out: &mut Vec<u8>, name: &[u8], count: u64) -> Result<(), NoMemory>
    ensures { OnOk result (out.new.items ≡ out.old.items ++ spec.count_line name.now count) }
{
    put(out, name)?;
    put(out, b" ")?;
    put_number(out, count)?;
    put(out, b"\n")
}

/// Appends the five lines of a run of so many packets.
pub(crate) fn five_lines(
    out: &mut Vec<u8>,
    packets: u32,
    tally: Tally,
    events: u64,
) -> Result<(), NoMemory>
    ensures { OnOk result (out.new.items ≡ out.old.items ++ spec.five_lines packets tally.pass tally.drop events tally.bytes) }
{
    count_line(out, b"packets", u64::from(packets))?;
    count_line(out, b"pass", tally.pass)?;
    count_line(out, b"drop", tally.drop)?;
    count_line(out, b"events", events)?;
    count_line(out, b"bytes", tally.bytes)
}
