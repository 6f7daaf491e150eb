//! A rows file, read part by part. Each part is either whole and right, or the first that is at fault.

ghost use Rattle.std.specs.Prelude.{◌≡◌, ◌≤◌, ◌<◌, ◌+◌, ◌*◌, ◌++◌, ◌∷◌, [], ℕ, List, IfOk, IfErr, OnOk, length, take, true, false};
ghost use Rattle.vsw_offload.specs.Bad.{Address, Begins, Done, IsBadRows, Number, Ports, Reaches, next_size, ports_text};
ghost use Rattle.vsw_offload.specs.Private.Reading.{ReadsCount, ReadsEntries, ReadsRow, ReadsRows, RefusesCount, RefusesRow, RefusesRows};
ghost use Rattle.vsw_offload.specs.Rows.{AreRows, head, is_among, macs_of, numbers_of, rows_bytes};
ghost use Rattle.vsw_offload.specs.declared.fault.BadRows.TheVariants.{Memory};
ghost use Rattle.vsw_offload.specs.declared.port_rows.PortRows.{PortRows};

use crate::fault::BadRows;
use crate::judging::{Rooms, is_row};
use crate::number::{ROW_LEN, address_at, number_at, row_at};
use crate::order::is_next;
use crate::port_rows::PortRows;
use std::alloc::Global;
use vsw_base::{Items, Mac};

/// What a rows file begins with.
pub(crate) const HEAD: [u8; 8] = *b"VSWROWS1";

/// Bytes of the head.
const HEAD_LEN: usize = 8;

/// Bytes of a number.
const NUMBER_LEN: usize = 4;

/// Bytes of an address.
const ADDRESS_LEN: usize = 6;

/// The most ports of a file.
const MOST_PORTS: u32 = 16;

/// The most rows of a port.
const MOST_ROWS: u32 = 16_384;

/// Whether so many bytes follow a place.
fn whole(bytes: &[u8], at: usize, size: usize) -> Result<(), BadRows>
    requires within { at ≤ length bytes.now }
    ensures ok { OnOk result (at + size ≤ length bytes.now) }
    ensures bad { (d : Done) → Reaches bytes.now at d → size ≡ next_size d → IfErr result (λ why. IsBadRows bytes.now why) }
{
    if bytes.len() - at < size {
        return Err(BadRows::Cut { at: at as u64 });
    }
    Ok(())
}

fn has_number(ports: &[PortRows], number: u32) -> bool
    ensures { result ≡ is_among number (numbers_of ports.now) }
{
    match ports.split_first() {
        None => false,
        Some((first, rest)) => number == first.port || has_number(rest, number),
    }
}

fn has_address(ports: &[PortRows], mac: Mac) -> bool
    ensures { result ≡ is_among mac (macs_of ports.now) }
{
    match ports.split_first() {
        None => false,
        Some((first, rest)) => mac == first.mac || has_address(rest, mac),
    }
}

/// A port's number. No port before has it.
fn read_number(bytes: &[u8], at: usize, ports: &[PortRows]) -> Result<u32, BadRows>
    requires within { at ≤ length bytes.now }
    ensures whole { OnOk result (at + 4 ≤ length bytes.now) }
    ensures ok { (count : ℕ) → Reaches bytes.now at (Ports count ports.now) → IfOk result (λ port. Reaches bytes.now (at + 4) (Number count ports.now port)) }
    ensures bad { (count : ℕ) → Reaches bytes.now at (Ports count ports.now) → IfErr result (λ why. IsBadRows bytes.now why) }
{
    whole(bytes, at, NUMBER_LEN)?;
    let port = number_at(bytes, at);
    if has_number(ports, port) {
        return Err(BadRows::PortTwice { at: at as u64 });
    }
    Ok(port)
}

/// A port's address. No port before has it.
fn read_address(bytes: &[u8], at: usize, ports: &[PortRows]) -> Result<Mac, BadRows>
    requires within { at ≤ length bytes.now }
    ensures whole { OnOk result (at + 6 ≤ length bytes.now) }
    ensures ok { (count port : ℕ) → Reaches bytes.now at (Number count ports.now port) → IfOk result (λ mac. Reaches bytes.now (at + 6) (Address count ports.now port mac)) }
    ensures bad { (count port : ℕ) → Reaches bytes.now at (Number count ports.now port) → IfErr result (λ why. IsBadRows bytes.now why) }
{
    whole(bytes, at, ADDRESS_LEN)?;
    let mac = address_at(bytes, at);
    if has_address(ports, mac) {
        return Err(BadRows::PortTwice { at: at as u64 });
    }
    Ok(mac)
}

/// How many entries the history of a port had.
fn read_entries(bytes: &[u8], at: usize) -> Result<u32, BadRows>
    requires within { at ≤ length bytes.now }
    ensures whole { OnOk result (at + 4 ≤ length bytes.now) }
    ensures ok { ReadsEntries bytes.now at result }
    ensures bad { (count port mac : ℕ) (ps : List PortRows) → Reaches bytes.now at (Address count ps port mac) → IfErr result (λ why. IsBadRows bytes.now why) }
{
    whole(bytes, at, NUMBER_LEN)?;
    Ok(number_at(bytes, at))
}

/// How many rows a port has.
fn read_row_count(bytes: &[u8], at: usize) -> Result<u32, BadRows>
    requires within { at ≤ length bytes.now }
    ensures whole { OnOk result (at + 4 ≤ length bytes.now) }
    ensures ok { ReadsCount bytes.now at result }
    ensures bad { RefusesCount bytes.now at result }
{
    whole(bytes, at, NUMBER_LEN)?;
    let rows = number_at(bytes, at);
    if rows > MOST_ROWS {
        return Err(BadRows::ManyRows { at: at as u64 });
    }
    Ok(rows)
}

fn push_row(rows: &mut Items<[u64; 73]>, words: [u64; 73]) -> Result<(), BadRows>
    ensures ok { OnOk result (rows.new ≡ rows.old ++ words ∷ []) }
    ensures err { IfErr result (λ why. why ≡ Memory) }
{
    match rows.push(words) {
        Ok(()) => Ok(()),
        Err(_) => Err(BadRows::Memory),
    }
}

/// One row more.
fn read_row(
    bytes: &[u8],
    at: usize,
    rows: &mut Items<[u64; 73]>,
    rooms: &mut Rooms,
) -> Result<(), BadRows>
    requires within { at ≤ length bytes.now }
    ensures whole { OnOk result (at + 584 ≤ length bytes.now) }
    ensures more { OnOk result (length rows.new ≡ length rows.old + 1) }
    ensures ok { ReadsRow bytes.now at rows.old rows.new result }
    ensures bad { RefusesRow bytes.now at rows.old result }
{
    whole(bytes, at, ROW_LEN)?;
    let mut words = [0; 73];
    row_at(bytes, at, &mut words);
    if !is_row(&words, rooms) {
        return Err(BadRows::BadRow { at: at as u64 });
    }
    if !is_next(rows.as_slice(), &words) {
        return Err(BadRows::Order { at: at as u64 });
    }
    push_row(rows, words)
}

/// All rows of a port, of which none was read.
fn read_rows(
    bytes: &[u8],
    first: usize,
    count: u32,
    rows: &mut Items<[u64; 73]>,
) -> Result<usize, BadRows>
    requires within { first ≤ length bytes.now }
    requires none { rows.old ≡ [] }
    ensures all { OnOk result (length rows.new ≡ count) }
    ensures within { IfOk result (λ end. end ≤ length bytes.now) }
    ensures ok { ReadsRows bytes.now first count rows.new result }
    ensures bad { RefusesRows bytes.now first count result }
{
    let mut at = first;
    let mut rooms = Rooms::new();
    for row in 0..count {
        read_row(bytes, at, rows, &mut rooms)?;
        at += ROW_LEN;
    }
    Ok(at)
}

fn push_port(ports: &mut Items<PortRows>, port: PortRows) -> Result<(), BadRows>
    ensures ok { OnOk result (ports.new ≡ ports.old ++ port ∷ []) }
    ensures err { IfErr result (λ why. why ≡ Memory) }
{
    match ports.push(port) {
        Ok(()) => Ok(()),
        Err(_) => Err(BadRows::Memory),
    }
}

/// One port more. It answers where its rows end.
fn read_port(
    alloc: Global,
    bytes: &[u8],
    at: usize,
    ports: &mut Items<PortRows>,
) -> Result<usize, BadRows>
    requires within { at ≤ length bytes.now }
    ensures more { OnOk result (length ports.new ≡ length ports.old + 1) }
    ensures ok { (count : ℕ) → Reaches bytes.now at (Ports count ports.old) → IfOk result (λ end. Begins bytes.now end (ports_text count ports.new) × AreRows ports.new) }
    ensures within { IfOk result (λ end. end ≤ length bytes.now) }
    ensures bad { (count : ℕ) → Reaches bytes.now at (Ports count ports.old) → IfErr result (λ why. IsBadRows bytes.now why) }
{
    let port = read_number(bytes, at, ports.as_slice())?;
    let mac_at = at + NUMBER_LEN;
    let mac = read_address(bytes, mac_at, ports.as_slice())?;
    let entries_at = mac_at + ADDRESS_LEN;
    let entries = read_entries(bytes, entries_at)?;
    let count_at = entries_at + NUMBER_LEN;
    let count = read_row_count(bytes, count_at)?;
    let mut rows = Items::new(alloc);
    let end = read_rows(bytes, count_at + NUMBER_LEN, count, &mut rows)?;
    push_port(
        ports,
        PortRows {
            port,
            mac,
            entries,
            rows,
        },
    )?;
    Ok(end)
}

/// All ports, of which none was read. It answers where they end.
fn read_ports(
    alloc: Global,
    bytes: &[u8],
    count: u32,
    ports: &mut Items<PortRows>,
) -> Result<usize, BadRows>
    requires few { count ≤ 16 }
    requires begins { Begins bytes.now 12 (ports_text count []) }
    requires none { ports.old ≡ [] }
    ensures all { OnOk result (length ports.new ≡ count) }
    ensures ok { IfOk result (λ end. Begins bytes.now end (ports_text count ports.new) × AreRows ports.new) }
    ensures bad { IfErr result (λ why. IsBadRows bytes.now why) }
{
    let mut at = HEAD_LEN + NUMBER_LEN;
    for port in 0..count {
        at = read_port(alloc, bytes, at, ports)?;
    }
    Ok(at)
}

/// Whether the bytes begin with the head.
fn has_head(bytes: &[u8]) -> bool
    ensures told { result ≡ true → (take 8 bytes.now ≡ head) × (8 ≤ length bytes.now) }
    ensures back { take 8 bytes.now ≡ head → result ≡ true }
{
    match bytes.first_chunk::<8>() {
        None => false,
        Some(front) => *front == HEAD,
    }
}

/// How many ports there are.
fn read_count(bytes: &[u8]) -> Result<u32, BadRows>
    requires within { 8 ≤ length bytes.now }
    requires head { take 8 bytes.now ≡ head }
    ensures few { IfOk result (λ count. count ≤ 16) }
    ensures ok { IfOk result (λ count. Begins bytes.now 12 (ports_text count [])) }
    ensures bad { IfErr result (λ why. IsBadRows bytes.now why) }
{
    whole(bytes, HEAD_LEN, NUMBER_LEN)?;
    let count = number_at(bytes, HEAD_LEN);
    if count > MOST_PORTS {
        return Err(BadRows::ManyPorts {
            at: HEAD_LEN as u64,
        });
    }
    Ok(count)
}

/// The ports of a rows file, or what is first at fault.
pub(crate) fn read_file(alloc: Global, bytes: &[u8]) -> Result<Items<PortRows>, BadRows>
    ensures are { IfOk result (λ ports. AreRows ports) }
    ensures file { IfOk result (λ ports. bytes.now ≡ rows_bytes ports) }
    ensures bad { IfErr result (λ why. IsBadRows bytes.now why) }
{
    if !has_head(bytes) {
        return Err(BadRows::NotRows);
    }
    let count = read_count(bytes)?;
    let mut ports = Items::new(alloc);
    let end = read_ports(alloc, bytes, count, &mut ports)?;
    if end < bytes.len() {
        return Err(BadRows::Extra { at: end as u64 });
    }
    Ok(ports)
}
