//! A trial of the program's edge: it writes its words, a line each, copies its input to its output, and ends with the
//! number of its words.
//!
//! It has no contract, since none can say what the system gives and takes: its one run tries the arguments, both standard
//! streams and an exit status other than 0, by the functions that the columnstore calls. It depends on `cs_outside`.
#![tactic(auto)]

use cs_outside::{Sink, Source, StdSink, StdSource, read_all, words, write_whole};
use std::alloc::Global;
use std::env;
use std::process::ExitCode;

/// The longest input in bytes.
const LIMIT: usize = 100_000;

/// The status of a run that failed.
const FAILED: u8 = 255;

/// Writes the words, a line each, and whether that was done.
fn list<O: Sink>(words: &[String], output: &mut O) -> bool {
    for word in words {
        if write_whole(output, word.as_bytes()).is_err() || write_whole(output, b"\n").is_err() {
            return false;
        }
    }
    true
}

/// Copies the input to the output, and whether that was done.
fn copy<I: Source, O: Sink>(alloc: Global, input: &mut I, output: &mut O) -> bool {
    match read_all(alloc, input, LIMIT) {
        Ok(bytes) => write_whole(output, bytes.as_slice()).is_ok(),
        Err(_) => false,
    }
}

fn main(rt: HostRuntime) -> ExitCode {
    let mut input = StdSource::new(rt.stdin());
    let mut output = StdSink::new(rt.stdout());
    let Ok(words) = words(rt.alloc(), env::args(&rt)) else {
        return ExitCode::from(FAILED);
    };
    if !list(words.as_slice(), &mut output) || !copy(rt.alloc(), &mut input, &mut output) {
        return ExitCode::from(FAILED);
    }
    ExitCode::from(words.len().min(200) as u8)
}
