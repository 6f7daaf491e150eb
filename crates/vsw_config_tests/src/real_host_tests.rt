//! The real host over a file of its own.

use std::test::Fail;
use std::{fs, process};
use vsw_host::{Failed, Host, RealHost};

/// What two reads answer, and the buffer of the first one.
type Reads = ([Result<usize, Failed>; 2], [u8; 8]);

fn read_twice(host: &mut RealHost, path: &str) -> Option<Reads> {
    let file = host.open(path).ok()?;
    let mut buffer = [0; 8];
    let counts = [host.read(file, &mut buffer), host.read(file, &mut [0])];
    Some((counts, buffer))
}

fn reads_it(host: &mut RealHost, path: &str) -> bool {
    read_twice(host, path) == Some(([Ok(5), Ok(0)], *b"12345\0\0\0"))
}

/// Which calls succeed when the file is gone.
fn call_without(host: &mut RealHost, path: &str) -> [bool; 3] {
    [
        host.open(path).is_ok(),
        host.put(b"put\n").is_ok(),
        host.complain(b"complained\n").is_ok(),
    ]
}

/// Whether the file is read, and which calls succeed after that.
fn seen(rt: &HostRuntime, host: &mut RealHost, path: &str) -> Option<(bool, [bool; 3])> {
    fs::write(rt, path, b"12345").ok()?;
    let is_read = reads_it(host, path);
    fs::remove_file(rt, path).ok()?;
    Some((is_read, call_without(host, path)))
}

#[test]
fn a_file_is_read_and_a_missing_one_refused(rt: HostRuntime) -> Result<(), Fail> {
    let path = format!(in rt.alloc(); "/tmp/vsw_host_{}", process::id(rt.process()))?;
    let mut host = RealHost::new(rt.alloc(), rt.clone()?);
    assert!(rt; seen(&rt, &mut host, path.as_str()) == Some((true, [false, true, true])));
    Ok(())
}
