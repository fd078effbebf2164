//! The program `graphiti`: it reads an elastic dataflow circuit, rewrites it and prints it.
//! All that it does is `run`, or `end_without_words` where there is no memory for the words; here the real streams are made and the
//! status is passed on.
#![tactic(auto)]

mod run;
#[cfg(test)]
mod tests;

use gx_base::{StdSink, StdSource};
use port_types::NoMemory;
use run::{end_without_words, run};
use std::env;
use std::io::ErrorKind;
use std::process::ExitCode;
use std::rt::Env;

fn main(rt: HostRuntime) -> ExitCode {
    let mut source = StdSource::new(rt.stdin());
    let mut out = StdSink::new(rt.stdout());
    let mut err = StdSink::new(rt.stderr());
    let status = match given_words(&rt) {
        Ok(words) => run(rt.alloc(), &words, &mut source, &mut out, &mut err),
        Err(NoMemory) => end_without_words(&mut err),
    };
    ExitCode::from(status.number())
}

/// The words of the command line without the program's name; none where they cannot be told, as words that are not UTF-8.
fn given_words(rt: &(impl Env + AllocGlobal)) -> Result<Vec<String>, NoMemory> {
    match env::args(rt) {
        Ok(mut words) => {
            let _ = words.next();
            words.collect(rt.alloc()).map_err(|_| NoMemory)
        }
        Err(error) if error.kind() == ErrorKind::OutOfMemory => Err(NoMemory),
        Err(_) => Ok(Vec::new(rt.alloc())),
    }
}
