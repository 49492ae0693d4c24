//! The program: LLVM text to dialect module and back.
#![tactic(auto)]

use round_ll::ended::Ended;
use round_ll::outside::{StdSink, StdSource};
use round_ll::run::{run, say};
use std::io::ErrorKind;
use std::process::ExitCode;
use std::{env, io, mem};

/// The words of the command line behind the program's name.
fn words(rt: &HostRuntime) -> io::Result<Vec<String>> {
    let mut words = Vec::new(rt.alloc());
    for word in env::args(rt)?.skip(1) {
        words.push(word)?;
    }
    Ok(words)
}

/// Runs over the standard streams, and ends with the status of the answer. Words that are no text are no
/// command; where there is no memory for them, that is the answer.
fn main(rt: HostRuntime) -> ExitCode {
    let mut source = StdSource::new(rt.stdin());
    let mut out = StdSink::new(rt.stdout());
    let mut err = StdSink::new(rt.stderr());
    let words = match words(&rt) {
        Ok(words) => words,
        Err(e) if e.kind() == ErrorKind::OutOfMemory => {
            say(&mut err, &Ended::NoMemory);
            return ExitCode::from(Ended::NoMemory.status());
        }
        Err(_) => Vec::new(rt.alloc()),
    };
    let ended = run(
        rt.alloc(),
        words.as_slice(),
        &mut source,
        &mut out,
        &mut err,
    );
    let status = ended.status();
    // The process ends here, so the modules are not let go one list after another.
    mem::forget(ended);
    ExitCode::from(status)
}
