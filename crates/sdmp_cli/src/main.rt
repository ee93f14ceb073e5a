//! The program: it answers the session on standard input, and its exit status says how the run ended.
#![tactic(auto)]

use sdmp_top::{Ends, RealSink, RealSource, Status, run};
use std::env;
use std::io::ErrorKind;
use std::process::ExitCode;
use turnstile::OpenGate;

fn main(rt: HostRuntime) -> ExitCode {
    let mut words = Vec::new(rt.alloc());
    let status = match env::args(&rt) {
        Ok(given) => {
            // the first word is the program's name
            for word in given.skip(1) {
                if words.push(word).is_err() {
                    return ExitCode::from(Status::NoMemory as u8);
                }
            }
            let mut source = RealSource::new(rt.stdin());
            let mut sink = RealSink::new(rt.stdout());
            let mut ends = Ends::new();
            run(
                &rt,
                rt.alloc(),
                &words,
                &mut source,
                &mut sink,
                &OpenGate,
                &mut ends,
            )
        }
        Err(error) if error.kind() == ErrorKind::OutOfMemory => Status::NoMemory,
        // a word that isn't UTF-8
        Err(_) => Status::BadWords,
    };
    ExitCode::from(status as u8)
}
