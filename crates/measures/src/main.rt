//! `measures`: does by itself what crates do for the program, so that it can be measured (`bench/`).
//!
//! `events read` and `events copy` read events from standard input, `rolls` puts items into a roll, `store` and
//! `store reads` put events into a store and read them. What each prints stands in its module.
#![tactic(auto)]

mod copying;
mod filling;
mod reading;
mod storing;

use std::io::Write;
use std::process::ExitCode;
use std::{env, io};

/// How a job ended.
#[derive(Clone, Copy)]
pub enum End {
    Done,
    Refused,
    Unknown,
}

impl End {
    /// Done if all was right.
    fn of(is_right: bool) -> End {
        if is_right { End::Done } else { End::Refused }
    }
}

fn main(rt: HostRuntime) -> io::Result<ExitCode> {
    let alloc = rt.alloc();
    let given: Vec<String> = env::args(&rt)?.collect(alloc)?;
    let mut words = Vec::new(alloc);
    for word in &given {
        words.push(word.as_str())?;
    }
    let end = match words.as_slice() {
        [_, "events", "read"] => copying::copy(&rt, alloc, false).map(End::of),
        [_, "events", "copy"] => copying::copy(&rt, alloc, true).map(End::of),
        [_, "rolls", what, times] => filling::fill(&rt, alloc, what, times),
        [_, "store"] => storing::store(&rt, alloc, false).map(End::of),
        [_, "store", "reads"] => storing::store(&rt, alloc, true).map(End::of),
        _ => Ok(End::Unknown),
    };
    tell(&rt, end?)
}

/// The exit status. Where the words name no job, it tells which there are.
fn tell(rt: &HostRuntime, end: End) -> io::Result<ExitCode> {
    match end {
        End::Done => Ok(ExitCode::SUCCESS),
        End::Refused => Ok(ExitCode::FAILURE),
        End::Unknown => {
            eprintln!(rt;
                "usage: measures events read|copy | rolls scattered|ascending|shares TIMES | store [reads]"
            )?;
            Ok(ExitCode::from(2))
        }
    }
}
