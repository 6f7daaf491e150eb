//! Seeds tell numbers that differ, and maps that have different seeds hash apart. No clause says so: to clauses all seeds are one.

use crate::walk::wrong::Wrong;
use std::hash::BuildHasher;
use vsw_layerflow::HashSeed;

fn differ(numbers: &[u64; 3]) -> Result<(), Wrong> {
    let [first, second, third] = *numbers;
    if first == second || second == third || first == third {
        return Err(Wrong::Step(0));
    }
    Ok(())
}

#[test]
fn a_seed_tells_another_number_at_each_turn() -> Result<(), Wrong> {
    let seed = HashSeed::known();
    differ(&[seed.number(0), seed.number(1), seed.number(2)])
}

#[test]
fn seeds_of_other_bytes_tell_other_numbers() -> Result<(), Wrong> {
    let known = HashSeed::known();
    let drawn = known.with_bytes(b"a policy");
    let other = known.with_bytes(b"b policy");
    differ(&[known.number(0), drawn.number(0), other.number(0)])
}

#[test]
fn maps_of_other_seeds_hash_a_number_apart() -> Result<(), Wrong> {
    let known = HashSeed::known();
    let drawn = known.with_bytes(b"a policy");
    let other = known.with_bytes(b"b policy");
    differ(&[
        known.seeded().hash_one(7_u64),
        drawn.seeded().hash_one(7_u64),
        other.seeded().hash_one(7_u64),
    ])
}

#[test]
fn a_map_hashes_numbers_apart_by_either_half() -> Result<(), Wrong> {
    let hashed = HashSeed::known().seeded();
    differ(&[
        hashed.hash_one(7_u64),
        hashed.hash_one(8_u64),
        hashed.hash_one(0x7_0000_0007_u64),
    ])
}
