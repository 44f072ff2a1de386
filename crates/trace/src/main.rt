//! Runs a script of store calls, and prints what each call answered.
//! The script comes from the file that the first argument names, or from standard input.
#![tactic(auto)]

mod failure;
mod memory;
mod session;

use failure::Failure;
use session::Session;
use std::process::ExitCode;
use std::{env, fs, io};

// Answers are gathered up to this many bytes before they are written.
const GATHERED: usize = 65536;

fn read_script(rt: &HostRuntime) -> io::Result<String> {
    match env::args(rt)?.skip(1).next() {
        Some(path) => fs::read_to_string(rt, path),
        None => io::read_to_string(rt.alloc(), rt.stdin()),
    }
}

fn run_lines(rt: &HostRuntime, session: &mut Session, text: &str) -> Result<(), Failure> {
    for (line, words) in (1u64..).zip(text.lines()) {
        session
            .step(words)
            .map_err(|mistake| Failure::Script { line, mistake })?;
        if session.out.len() >= GATHERED {
            rt.print(session.out.as_str())?;
            session.out.clear();
        }
    }
    // Lines are counted only where the script ends inside a column.
    session.finish().map_err(|mistake| Failure::Script {
        line: (text.lines().count() as u64).saturating_add(1),
        mistake,
    })
}

fn replay(rt: &HostRuntime, text: &str) -> Result<(), Failure> {
    let mut session = Session::new(rt.alloc());
    let result = run_lines(rt, &mut session, text);
    // What was answered before a mistake is printed all the same.
    rt.print(session.out.as_str())?;
    result
}

fn run(rt: &HostRuntime) -> Result<(), Failure> {
    let text = read_script(rt)?;
    replay(rt, text.as_str())
}

fn main(rt: HostRuntime) -> ExitCode {
    match run(&rt) {
        Ok(()) => ExitCode::SUCCESS,
        Err(failure) => {
            let _ = eprintln!(rt; "{failure}");
            ExitCode::FAILURE
        }
    }
}
