//! A rows file, written.

ghost use Rattle.std.specs.Prelude.{◌≡◌, ◌<◌, ◌≤◌, ◌+◌, ◌*◌, ◌++◌, IfOk, OnOk, get_or, length, map};
ghost use Rattle.std.specs.List.{flat_map};
ghost use Rattle.byteorder.specs.Endian.{big_bytes, little_bytes};
ghost use Rattle.vsw_offload.specs.Private.Writing.{AreBelow, placed};
ghost use Rattle.vsw_offload.specs.Rows.{all_rows_bytes, head, ordered, port_bytes, row_bytes, rows_bytes};
ghost use Rattle.vsw_policy.specs.Sound.{Each};

use crate::placing::{at_place, places_in_order};
use crate::port_rows::PortRows;
use crate::reading::HEAD;
use byteorder::{BigEndian, ByteOrder, LittleEndian};
use std::alloc::Global;
use vsw_base::{Mac, NoMemory};

/// Bytes of a file before its ports, and of a port before its rows.
const FRONT_LEN: usize = 12;

const PORT_LEN: usize = 18;

/// Bytes of a row.
const ROW_LEN: usize = 584;

fn append(out: &mut Vec<u8>, bytes: &[u8]) -> Result<(), NoMemory>
    ensures { OnOk result (out.new.items ≡ out.old.items ++ bytes.now) }
{
    match out.extend_from_slice(bytes) {
        Ok(()) => Ok(()),
        Err(_) => Err(NoMemory),
    }
}

fn write_number(number: u32, out: &mut Vec<u8>) -> Result<(), NoMemory>
    ensures { OnOk result (out.new.items ≡ out.old.items ++ little_bytes 4 number) }
{
    let mut bytes = [0; 4];
    LittleEndian::write_u32(&mut bytes, number);
    append(out, &bytes)
}

fn write_address(mac: Mac, out: &mut Vec<u8>) -> Result<(), NoMemory>
    ensures { OnOk result (out.new.items ≡ out.old.items ++ big_bytes 6 mac) }
{
    let mut bytes = [0; 6];
    BigEndian::write_u48(&mut bytes, mac.number());
    append(out, &bytes)
}

fn write_row(words: &[u64; 73], out: &mut Vec<u8>) -> Result<(), NoMemory>
    ensures { OnOk result (out.new.items ≡ out.old.items ++ row_bytes words.now) }
{
    let mut bytes = [0; ROW_LEN];
    LittleEndian::write_u64_into(words, &mut bytes);
    append(out, &bytes)
}

fn place_at(places: &[u32], index: usize) -> u32
    requires { index < length places.now }
    ensures { result ≡ get_or places.now index 0 }
{
    places[index]
}

/// The rows at places, one after the other.
fn write_placed(rows: &[[u64; 73]], places: &[u32], out: &mut Vec<u8>) -> Result<(), NoMemory>
    requires below { AreBelow (length rows.now) places.now }
    ensures { OnOk result (out.new.items ≡ out.old.items ++ all_rows_bytes (placed rows.now places.now)) }
{
    for index in 0..places.len() {
        write_row(at_place(rows, place_at(places, index)), out)?;
    }
    Ok(())
}

/// Appends a port of a rows file, its rows in the order of their keys, of each key the first.
pub fn write_port(alloc: Global, port: &PortRows, out: &mut Vec<u8>) -> Result<(), NoMemory>
    requires { length port.now.rows ≤ 16384 }
    ensures { OnOk result (out.new.items ≡ out.old.items ++ port_bytes (ordered port.now)) }
{
    let rows = port.rows.as_slice();
    let places = places_in_order(alloc, rows)?;
    write_number(port.port, out)?;
    write_address(port.mac, out)?;
    write_number(port.entries, out)?;
    write_number(places.len() as u32, out)?;
    write_placed(rows, &places, out)
}

fn write_ports(alloc: Global, ports: &[PortRows], out: &mut Vec<u8>) -> Result<(), NoMemory>
    requires { Each (λ p. length p.rows ≤ 16384) ports.now }
    ensures { OnOk result (out.new.items ≡ out.old.items ++ flat_map port_bytes (map ordered ports.now)) }
{
    match ports.split_first() {
        None => Ok(()),
        Some((first, rest)) => {
            write_port(alloc, first, out)?;
            write_ports(alloc, rest, out)
        }
    }
}

/// The front of the rows file of so many ports, behind which one is written after the other (`write_port`).
pub fn begin_rows(alloc: Global, ports: u32) -> Result<Vec<u8>, NoMemory>
    ensures { IfOk result (λ file. file.items ≡ head ++ little_bytes 4 ports) }
{
    let mut out = Vec::new(alloc);
    append(&mut out, &HEAD)?;
    write_number(ports, &mut out)?;
    Ok(out)
}

/// At most so many bytes are written for ports.
fn most_bytes(ports: &[PortRows]) -> usize
    requires few { Each (λ p. length p.rows ≤ 16384) ports.now }
    requires ports { length ports.now ≤ 16 }
    ensures { result ≤ 9568274 * length ports.now }
{
    match ports.split_first() {
        None => 0,
        Some((first, rest)) => PORT_LEN + ROW_LEN * first.rows.len() + most_bytes(rest),
    }
}

/// The rows file of ports, each with its rows in the order of their keys, of each key the first. Beside the file no row stands
/// twice in memory: they are put in order by their places.
pub fn write_rows(alloc: Global, ports: &[PortRows]) -> Result<Vec<u8>, NoMemory>
    requires ports { length ports.now ≤ 16 }
    requires rows { Each (λ p. length p.rows ≤ 16384) ports.now }
    ensures { IfOk result (λ file. file.items ≡ rows_bytes (map ordered ports.now)) }
{
    let Ok(mut out) = Vec::with_capacity(alloc, FRONT_LEN + most_bytes(ports)) else {
        return Err(NoMemory);
    };
    append(&mut out, &HEAD)?;
    write_number(ports.len() as u32, &mut out)?;
    write_ports(alloc, ports, &mut out)?;
    Ok(out)
}
