//! The switch program: its words are those of `vsw_app::run_words`, its host is the real one, and its
//! exit status is the run's.
#![tactic(auto)]

use std::env;
use std::process::ExitCode;
use vsw_app::{exit_code, run_process, status_without};
use vsw_host::{Host, RealHost};
use vsw_run::{Status, Word};

fn words(rt: &HostRuntime) -> Result<Vec<Word>, Status> {
    let given = env::args(rt).map_err(|error| status_without(error.kind()))?;
    let mut words = Vec::new(rt.alloc());
    for word in given {
        if words.push(Word::of(word)).is_err() {
            return Err(Status::Memory);
        }
    }
    Ok(words)
}

fn main(rt: HostRuntime) -> ExitCode {
    let words = words(&rt);
    let alloc = rt.alloc();
    let mut host = RealHost::new(alloc, rt);
    match words {
        Ok(words) => run_process(&rt, alloc, &words, &mut host),
        Err(Status::Memory) => {
            let _ = host.complain(b"vsw: memory\n");
            ExitCode::from(exit_code(Status::Memory))
        }
        // No words are refused as those are that can't be read.
        Err(_) => run_process(&rt, alloc, &[], &mut host),
    }
}
