//! The program: `explorer::ended` on the words of the command line, the files and the standard streams of the system.
#![tactic(auto)]

use explorer::{ended, words};
use std::fs;
use std::process::ExitCode;

fn main(rt: HostRuntime) -> ExitCode {
    let open = |path: &str| fs::open(&rt, path);
    ended(&rt, || words(&rt), open, &mut rt.stdout(), &mut rt.stderr())
}
