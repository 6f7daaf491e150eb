//! Command lines, with what each asks for.

use std::alloc::{AllocError, Global};
use std::test::Fail;
use vsw_run::{Asked, Word, read_words};

/// The words of a line, between single spaces.
fn words_of(alloc: Global, line: &str) -> Result<Vec<Word>, AllocError> {
    let mut words = Vec::new(alloc);
    for word in line.split(' ') {
        words.push(Word::of(word.to_string(alloc)?))?;
    }
    Ok(words)
}

/// What is asked for, in words.
fn told(alloc: Global, asked: &Option<Asked<'_>>) -> Result<String, AllocError> {
    match asked {
        Some(Asked::Forward(r)) => format!(in alloc;
            "{} workers, {} {} {}",
            r.workers, r.policy, r.commands, r.trace
        ),
        Some(Asked::Deliver(r)) => format!(in alloc;
            "{} workers hand on, {} {} {}",
            r.workers, r.policy, r.commands, r.trace
        ),
        Some(Asked::Stream(r)) => format!(in alloc;
            "{} workers stream, {} {} {}",
            r.workers, r.policy, r.commands, r.trace
        ),
        Some(Asked::Offload(r)) => format!(in alloc;
            "rows of {} worker, {} {} {}",
            r.workers, r.policy, r.commands, r.trace
        ),
        Some(Asked::Check(c)) => format!(in alloc;
            "{} of {} workers, {} {} {}",
            c.report, c.run.workers, c.run.policy, c.run.commands, c.run.trace
        ),
        Some(Asked::Engine(q)) => format!(in alloc; "{} by {}", q.trace, q.rows),
        Some(Asked::Generate { start, packets }) => format!(in alloc;
            "{} packets from {}",
            packets, start
        ),
        None => "refused".to_string(alloc),
    }
}

/// The first line that asks for something else than is written beside it.
fn first_wrong<'a>(
    alloc: Global,
    lines: &[(&'a str, &'a str)],
) -> Result<Option<&'a str>, AllocError> {
    for (line, wanted) in lines {
        let words = words_of(alloc, line)?;
        if told(alloc, &read_words(&words))?.as_str() != *wanted {
            return Ok(Some(*line));
        }
    }
    Ok(None)
}

/// Lines of the grammar.
const GOOD: [(&str, &str); 19] = [
    ("vsw forward P C T", "1 workers, P C T"),
    ("any forward - - -", "1 workers, - - -"),
    ("vsw forward P -- C T", "1 workers, P C T"),
    ("vsw forward P C T --", "1 workers, P C T"),
    (
        "vsw forward -- --workers -- -x",
        "1 workers, --workers -- -x",
    ),
    (
        "vsw forward -- -- --workers=2 -x",
        "1 workers, -- --workers=2 -x",
    ),
    ("vsw forward --workers 2 P C T", "2 workers, P C T"),
    ("vsw forward P --workers 16 C T", "16 workers, P C T"),
    ("vsw forward P C --workers 1 T", "1 workers, P C T"),
    ("vsw forward P C T --workers 9", "9 workers, P C T"),
    ("vsw forward --workers=2 -- P C T", "2 workers, P C T"),
    ("vsw forward P --workers=10 C -- T", "10 workers, P C T"),
    ("vsw forward P C T --workers=16 --", "16 workers, P C T"),
    (
        "vsw forward --workers 3 -- -P --workers 4",
        "3 workers, -P --workers 4",
    ),
    (
        "vsw forward forward generate 1",
        "1 workers, forward generate 1",
    ),
    (" forward P C T", "1 workers, P C T"),
    ("vsw generate 1 1", "1 packets from 1"),
    ("vsw generate 0 1048576", "1048576 packets from 0"),
    ("vsw generate 2147483647 20", "20 packets from 2147483647"),
];

#[test]
fn lines_of_the_grammar_are_read(rt: HostRuntime) -> Result<(), Fail> {
    let wrong = first_wrong(rt.alloc(), &GOOD)?;
    assert!(rt; wrong.is_none(), "{wrong:?}");
    Ok(())
}

/// Lines that ask to hand packets on between the ports.
const DELIVERIES: [(&str, &str); 16] = [
    ("vsw deliver P C T", "1 workers hand on, P C T"),
    ("any deliver - - -", "1 workers hand on, - - -"),
    ("vsw deliver --workers 2 P C T", "2 workers hand on, P C T"),
    (
        "vsw deliver P C T --workers=16",
        "16 workers hand on, P C T",
    ),
    ("vsw deliver P C -- -T", "1 workers hand on, P C -T"),
    (
        "vsw deliver deliver forward T",
        "1 workers hand on, deliver forward T",
    ),
    ("vsw deliver", "refused"),
    ("vsw deliver P C", "refused"),
    ("vsw deliver P C T R", "refused"),
    ("vsw deliver P C ", "refused"),
    ("vsw deliver P C -T", "refused"),
    ("vsw deliver --workers 0 P C T", "refused"),
    ("vsw deliver --workers=17 P C T", "refused"),
    ("vsw deliver --local P C T", "refused"),
    ("vsw Deliver P C T", "refused"),
    ("vsw delivery P C T", "refused"),
];

#[test]
fn lines_of_a_delivery_name_three_files(rt: HostRuntime) -> Result<(), Fail> {
    let wrong = first_wrong(rt.alloc(), &DELIVERIES)?;
    assert!(rt; wrong.is_none(), "{wrong:?}");
    Ok(())
}

/// Lines that ask to forward while the trace is read.
const STREAMS: [(&str, &str); 16] = [
    ("vsw stream P C T", "1 workers stream, P C T"),
    ("any stream - - -", "1 workers stream, - - -"),
    ("vsw stream --workers 2 P C T", "2 workers stream, P C T"),
    ("vsw stream P C T --workers=16", "16 workers stream, P C T"),
    ("vsw stream P C -- -T", "1 workers stream, P C -T"),
    (
        "vsw stream stream forward T",
        "1 workers stream, stream forward T",
    ),
    ("vsw stream", "refused"),
    ("vsw stream P C", "refused"),
    ("vsw stream P C T R", "refused"),
    ("vsw stream P C ", "refused"),
    ("vsw stream P C -T", "refused"),
    ("vsw stream --workers 0 P C T", "refused"),
    ("vsw stream --workers=17 P C T", "refused"),
    ("vsw stream --local P C T", "refused"),
    ("vsw Stream P C T", "refused"),
    ("vsw streams P C T", "refused"),
];

#[test]
fn lines_of_a_stream_name_three_files(rt: HostRuntime) -> Result<(), Fail> {
    let wrong = first_wrong(rt.alloc(), &STREAMS)?;
    assert!(rt; wrong.is_none(), "{wrong:?}");
    Ok(())
}

/// Lines that ask for rows.
const OFFLOADS: [(&str, &str); 18] = [
    ("vsw offload P C T", "rows of 1 worker, P C T"),
    ("any offload - - -", "rows of 1 worker, - - -"),
    ("vsw offload P C -- -T", "rows of 1 worker, P C -T"),
    ("vsw offload -- P C T", "rows of 1 worker, P C T"),
    ("vsw offload P C T --", "rows of 1 worker, P C T"),
    (
        "vsw offload -- --workers=2 -- -x",
        "rows of 1 worker, --workers=2 -- -x",
    ),
    (
        "vsw offload offload forward T",
        "rows of 1 worker, offload forward T",
    ),
    ("vsw offload", "refused"),
    ("vsw offload P C", "refused"),
    ("vsw offload P C T R", "refused"),
    ("vsw offload P C ", "refused"),
    ("vsw offload P C -T", "refused"),
    ("vsw offload --workers 1 P C T", "refused"),
    ("vsw offload P C T --workers=1", "refused"),
    ("vsw offload --rows P C T", "refused"),
    ("vsw offload P C -- T U", "refused"),
    ("vsw Offload P C T", "refused"),
    ("vsw offloads P C T", "refused"),
];

#[test]
fn lines_of_an_offload_name_three_files(rt: HostRuntime) -> Result<(), Fail> {
    let wrong = first_wrong(rt.alloc(), &OFFLOADS)?;
    assert!(rt; wrong.is_none(), "{wrong:?}");
    Ok(())
}

/// Lines that ask for a check.
const CHECKS: [(&str, &str); 18] = [
    ("vsw check P C T R", "R of 1 workers, P C T"),
    ("vsw check - - - -", "- of 1 workers, - - -"),
    ("vsw check --workers 4 P C T R", "R of 4 workers, P C T"),
    ("vsw check P C T --workers=16 R", "R of 16 workers, P C T"),
    ("vsw check P C T R --workers 2", "R of 2 workers, P C T"),
    (
        "vsw check P C --workers 2 -- -T R",
        "R of 2 workers, P C -T",
    ),
    (
        "vsw check P C T -- --workers",
        "--workers of 1 workers, P C T",
    ),
    ("vsw check check C T R", "R of 1 workers, check C T"),
    ("vsw check", "refused"),
    ("vsw check P C T", "refused"),
    ("vsw check P C T R S", "refused"),
    ("vsw check P C T ", "refused"),
    ("vsw check  C T R", "refused"),
    ("vsw check P C T -r", "refused"),
    ("vsw check --workers 0 P C T R", "refused"),
    ("vsw check --workers=17 P C T R", "refused"),
    ("vsw check --workers P C T R", "refused"),
    ("vsw Check P C T R", "refused"),
];

#[test]
fn lines_of_a_check_name_four_files(rt: HostRuntime) -> Result<(), Fail> {
    let wrong = first_wrong(rt.alloc(), &CHECKS)?;
    assert!(rt; wrong.is_none(), "{wrong:?}");
    Ok(())
}

/// Lines that ask for answers from rows.
const ENGINES: [(&str, &str); 14] = [
    ("vsw engine R T", "T by R"),
    ("vsw engine - -", "- by -"),
    ("vsw engine R -- -T", "-T by R"),
    ("vsw engine -- --workers -x", "-x by --workers"),
    ("vsw engine R T --", "T by R"),
    ("vsw engine engine T", "T by engine"),
    ("vsw engine", "refused"),
    ("vsw engine R", "refused"),
    ("vsw engine R T U", "refused"),
    ("vsw engine R ", "refused"),
    ("vsw engine -R T", "refused"),
    ("vsw engine --workers 1 R T", "refused"),
    ("vsw engine --workers=1 R T", "refused"),
    ("vsw Engine R T", "refused"),
];

#[test]
fn lines_of_an_engine_name_two_files(rt: HostRuntime) -> Result<(), Fail> {
    let wrong = first_wrong(rt.alloc(), &ENGINES)?;
    assert!(rt; wrong.is_none(), "{wrong:?}");
    Ok(())
}

/// Each word of the grammar once with another spelling, and words too few or too many.
const MISSPELT: [(&str, &str); 24] = [
    ("", "refused"),
    ("vsw", "refused"),
    ("forward P C T", "refused"),
    ("vsw forwards P C T", "refused"),
    ("vsw Forward P C T", "refused"),
    ("vsw  P C T", "refused"),
    ("vsw help", "refused"),
    ("vsw -h", "refused"),
    ("vsw --help", "refused"),
    ("vsw --workers 2 forward P C T", "refused"),
    ("vsw forward", "refused"),
    ("vsw forward P C", "refused"),
    ("vsw forward P C T U", "refused"),
    ("vsw forward P C -- T U", "refused"),
    ("vsw forward -x C T", "refused"),
    ("vsw forward P --trace T", "refused"),
    ("vsw forward --worker 2 P C T", "refused"),
    ("vsw forward --Workers=2 P C T", "refused"),
    ("vsw forward -workers 2 P C T", "refused"),
    ("vsw forward --- P C T", "refused"),
    ("vsw forward  C T", "refused"),
    ("vsw forward P  T", "refused"),
    ("vsw forward P C ", "refused"),
    ("vsw forward P -- C ", "refused"),
];

#[test]
fn other_spellings_are_refused(rt: HostRuntime) -> Result<(), Fail> {
    let wrong = first_wrong(rt.alloc(), &MISSPELT)?;
    assert!(rt; wrong.is_none(), "{wrong:?}");
    Ok(())
}

/// Options that are out of range, twice, without a number, or where none may stand.
const OPTIONS: [(&str, &str); 21] = [
    ("vsw forward --workers 0 P C T", "refused"),
    ("vsw forward --workers 17 P C T", "refused"),
    ("vsw forward --workers 01 P C T", "refused"),
    ("vsw forward --workers +1 P C T", "refused"),
    ("vsw forward --workers -1 P C T", "refused"),
    ("vsw forward --workers 1x P C T", "refused"),
    ("vsw forward --workers  P C T", "refused"),
    ("vsw forward --workers 4294967297 P C T", "refused"),
    ("vsw forward --workers=0 P C T", "refused"),
    ("vsw forward --workers=17 P C T", "refused"),
    ("vsw forward --workers=01 P C T", "refused"),
    ("vsw forward --workers=+1 P C T", "refused"),
    ("vsw forward --workers= P C T", "refused"),
    ("vsw forward --workers= 2 P C T", "refused"),
    ("vsw forward --workers P C T", "refused"),
    ("vsw forward P C T --workers", "refused"),
    ("vsw forward --workers -- P C T", "refused"),
    ("vsw forward --workers --workers=2 P C T", "refused"),
    ("vsw forward --workers 2 --workers 2 P C T", "refused"),
    ("vsw forward --workers=2 P C --workers=2 T", "refused"),
    ("vsw forward P C -- --workers 2 T", "refused"),
];

#[test]
fn options_out_of_order_are_refused(rt: HostRuntime) -> Result<(), Fail> {
    let wrong = first_wrong(rt.alloc(), &OPTIONS)?;
    assert!(rt; wrong.is_none(), "{wrong:?}");
    Ok(())
}

/// Numbers of `generate` that are out of range, and words that may not stand there.
const NUMBERS: [(&str, &str); 14] = [
    ("vsw generate 01 5", "refused"),
    ("vsw generate 1 05", "refused"),
    ("vsw generate 00 5", "refused"),
    ("vsw generate +1 5", "refused"),
    ("vsw generate -1 5", "refused"),
    ("vsw generate 2147483648 1", "refused"),
    ("vsw generate 99999999999999999999 1", "refused"),
    ("vsw generate 1 0", "refused"),
    ("vsw generate 1 1048577", "refused"),
    ("vsw generate 1", "refused"),
    ("vsw generate 1 1 1", "refused"),
    ("vsw generate -- 1 1", "refused"),
    ("vsw generate --workers=1 1 1", "refused"),
    ("vsw generated 1 1", "refused"),
];

#[test]
fn numbers_out_of_range_are_refused(rt: HostRuntime) -> Result<(), Fail> {
    let wrong = first_wrong(rt.alloc(), &NUMBERS)?;
    assert!(rt; wrong.is_none(), "{wrong:?}");
    Ok(())
}
