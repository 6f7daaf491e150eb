//! Ports.

ghost use Rattle.std.specs.Prelude.{◌≡◌, ◌==◌, [], map};
ghost use Rattle.std.specs.List.{list_any};
ghost use Rattle.serde_json.specs.View.{view};
ghost use Rattle.vsw_config.specs.Fault.{Says};
ghost use Rattle.vsw_config.specs.List.{items_after};
ghost use Rattle.vsw_config.specs.Port.{fresh_port, fresh_mac, port_of};

use crate::file::PortFile;
use crate::layer::LayersReader;
use crate::{
    Fault, ReadItem, ReadValue, Word, fresh, list, mac, member, number_in, object_in, short,
};
use serde_json::Value;
use std::alloc::Global;
use vsw_base::{Items, Mac};

const LEAST_ROWS: u32 = 8;

const MOST_ROWS: u32 = 16_384;

const PORT_WORDS: [Word; 4] = [Word::Port, Word::Mac, Word::Rows, Word::Layers];

fn is_number_taken(number: u16, ports: &[PortFile]) -> bool
    ensures { result ≡ list_any (λ p. p.port == number) ports.now }
{
    ports.iter().any(|port| port.port == number)
}

/// Reads a number that none of these ports has.
#[derive(Drop)]
struct NumberReader<'a> {
    done: &'a [PortFile],
}

impl<'a> ReadValue<u16> for NumberReader<'a> {
    ghost value_of = { λ reader. fresh_port reader.done.now };

    #[tactic(auto, unfolding(crate::specs::Port::fresh_port))]
    fn value(&self, alloc: Global, value: &Value) -> Result<u16, Fault> {
        let number = short(alloc, value)?;
        fresh(alloc, is_number_taken(number, self.done), number)
    }
}

fn is_mac_taken(mac: u64, ports: &[PortFile]) -> bool
    ensures { result ≡ list_any (λ p. p.mac == mac) ports.now }
{
    ports.iter().any(|port| port.mac.number() == mac)
}

fn is_address_taken(mac: Mac, ports: &[PortFile]) -> bool
    ensures { result ≡ list_any (λ p. p.mac == mac) ports.now }
{
    is_mac_taken(mac.number(), ports)
}

/// Reads an address that none of these ports has.
#[derive(Drop)]
struct AddressReader<'a> {
    done: &'a [PortFile],
}

impl<'a> ReadValue<Mac> for AddressReader<'a> {
    ghost value_of = { λ reader. fresh_mac reader.done.now };

    #[tactic(auto, unfolding(crate::specs::Port::fresh_mac))]
    fn value(&self, alloc: Global, value: &Value) -> Result<Mac, Fault> {
        let mac = mac(alloc, value)?;
        fresh(alloc, is_address_taken(mac, self.done), mac)
    }
}

/// Reads a port whose layers are of these controllers.
#[derive(Drop)]
struct PortReader<'a> {
    version: u8,
    known: &'a [u16],
}

impl<'a> ReadItem<PortFile> for PortReader<'a> {
    ghost item_of = { λ reader. port_of reader.version reader.known.now };

    #[tactic(auto, unfolding(crate::specs::Port::port_of))]
    fn item(&self, alloc: Global, done: &[PortFile], value: &Value) -> Result<PortFile, Fault> {
        let (version, known) = (self.version, self.known);
        let object = object_in(alloc, &PORT_WORDS, value)?;
        let port = member(alloc, object, Word::Port, &NumberReader { done })?;
        let mac = member(alloc, object, Word::Mac, &AddressReader { done })?;
        let rows = number_in(alloc, LEAST_ROWS, MOST_ROWS, object, Word::Rows)?;
        let layers = member(
            alloc,
            object,
            Word::Layers,
            &LayersReader { version, known },
        )?;
        Ok(PortFile {
            port,
            mac,
            rows,
            layers,
        })
    }
}

/// Ports whose layers are of these controllers.
pub fn ports(
    alloc: Global,
    version: u8,
    known: &[u16],
    values: &[Value],
) -> Result<Items<PortFile>, Fault>
    ensures { Says result (items_after (port_of version known.now) [] (map view values.now)) }
{
    let ports = list(alloc, &PortReader { version, known }, values)?;
    Ok(ports)
}
