//! The program: the words of the command line and the standard streams, handed to the top call.
#![tactic(auto)]

use fin_cli::finch;
use fin_ports::{StdSink, StdSource};
use std::env;
use std::io::ErrorKind;
use std::process::ExitCode;

// Where the words can't be had, nothing is written.
const OUT_OF_MEMORY: u8 = 5;

const NOT_TEXT: u8 = 6;

fn main(rt: HostRuntime) -> ExitCode {
    let alloc = rt.alloc();
    let words = match env::args(&rt) {
        Ok(args) => args.collect(alloc),
        Err(e) => {
            let status = match e.kind() {
                ErrorKind::OutOfMemory => OUT_OF_MEMORY,
                _ => NOT_TEXT,
            };
            return ExitCode::from(status);
        }
    };
    let words: Vec<String> = match words {
        Ok(words) => words,
        Err(_) => return ExitCode::from(OUT_OF_MEMORY),
    };
    let mut source = StdSource::new(rt.stdin());
    let mut out = StdSink::new(rt.stdout());
    let mut err = StdSink::new(rt.stderr());
    ExitCode::from(finch(&rt, alloc, &words, &mut source, &mut out, &mut err))
}
