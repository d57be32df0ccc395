// Reading and writing whole, with calls that fail.
use crate::made::{same, same_text};
use cs_outside::{
    InputRefusal, MemorySink, MemorySource, Sink, Source, WriteRefusal, read_all, words,
    write_whole,
};
use std::alloc::{AllocError, Global};
use std::env::Args;
use std::io;
use std::io::ErrorKind;
use std::test::Fail;

/// The numbers from 0 on, modulo 251, so that no two pieces of a read look alike.
fn ramp(alloc: Global, length: usize) -> Result<Vec<u8>, Fail> {
    let mut bytes = Vec::with_capacity(alloc, length)?;
    for i in 0..length {
        bytes.push((i % 251) as u8)?;
    }
    Ok(bytes)
}

/// A source of the bytes of `ramp`, in steps of so many bytes, or in no steps for 0.
fn source_of(
    alloc: Global,
    length: usize,
    step: usize,
    failing: u64,
) -> Result<MemorySource, Fail> {
    let bytes = ramp(alloc, length)?;
    let failing = vec![in alloc; failing]?;
    Ok(match step {
        0 => MemorySource::new(bytes, failing),
        _ => MemorySource::in_steps(bytes, step, failing),
    })
}

/// A sink with so much room, in steps of so many bytes, or in no steps for 0.
fn sink_of(alloc: Global, room: usize, step: usize, failing: u64) -> Result<MemorySink, Fail> {
    let failing = vec![in alloc; failing]?;
    Ok(match step {
        0 => MemorySink::new(alloc, room, failing)?,
        _ => MemorySink::in_steps(alloc, room, step, failing)?,
    })
}

/// Bytes, a step, a limit, the failing call, what is wanted, and the calls.
type Reading = (usize, usize, usize, u64, Result<usize, InputRefusal>, u64);

static READINGS: [Reading; 11] = [
    (0, 0, 0, 0, Ok(0), 1),
    (1, 0, 1, 0, Ok(1), 2),
    (20_000, 0, 20_000, 0, Ok(20_000), 4),
    (20_000, 0, 19_999, 0, Err(InputRefusal::TooLong), 3),
    (1, 0, 0, 0, Err(InputRefusal::TooLong), 1),
    (20_000, 0, 20_000, 1, Err(InputRefusal::Fault), 1),
    (20_000, 0, 20_000, 4, Err(InputRefusal::Fault), 4),
    (20_000, 0, 20_000, 5, Ok(20_000), 4),
    (122, 7, 122, 0, Ok(122), 19),
    (122, 1, 122, 0, Ok(122), 123),
    (122, 7, 122, 19, Err(InputRefusal::Fault), 19),
];

#[test]
fn reads_whole_or_refuses(rt: HostRuntime) -> Result<(), Fail> {
    for &(length, step, limit, failing, wanted, calls) in &READINGS {
        let mut source = source_of(rt.alloc(), length, step, failing)?;
        let read = match read_all(rt.alloc(), &mut source, limit) {
            Ok(bytes) => {
                same_text(&rt, bytes.as_slice(), ramp(rt.alloc(), length)?.as_slice());
                Ok(bytes.len())
            }
            Err(refusal) => Err(refusal),
        };
        let given = (length, step, limit, failing);
        same(&rt, &given, &(read, source.calls()), &(wanted, calls));
    }
    Ok(())
}

/// Bytes, the room, a step, the failing call, what is wanted, the bytes held, and the calls.
type Writing = (
    usize,
    usize,
    usize,
    u64,
    Result<(), WriteRefusal>,
    usize,
    u64,
);

static WRITINGS: [Writing; 11] = [
    (5, 5, 0, 0, Ok(()), 5, 1),
    (5, 9, 0, 0, Ok(()), 5, 1),
    (5, 3, 0, 0, Err(WriteRefusal::Fault), 3, 2),
    (5, 0, 0, 0, Err(WriteRefusal::Fault), 0, 1),
    (5, 5, 0, 1, Err(WriteRefusal::Fault), 0, 1),
    (5, 5, 0, 2, Ok(()), 5, 1),
    (87, 87, 10, 0, Ok(()), 87, 9),
    (87, 87, 10, 9, Err(WriteRefusal::Fault), 80, 9),
    (65_536, 70_000, 0, 0, Ok(()), 65_536, 1),
    (65_537, 70_000, 0, 0, Ok(()), 65_537, 2),
    (65_537, 70_000, 0, 2, Err(WriteRefusal::Fault), 65_536, 2),
];

#[test]
fn writes_whole_or_a_front(rt: HostRuntime) -> Result<(), Fail> {
    for &(length, room, step, failing, wanted, held, calls) in &WRITINGS {
        let bytes = ramp(rt.alloc(), length)?;
        let mut sink = sink_of(rt.alloc(), room, step, failing)?;
        let written = write_whole(&mut sink, bytes.as_slice());
        let given = (length, room, step, failing);
        same(&rt, &given, &(written, sink.calls()), &(wanted, calls));
        same_text(&rt, sink.held(), ramp(rt.alloc(), held)?.as_slice());
    }
    Ok(())
}

#[test]
fn words_come_after_the_name(rt: HostRuntime) -> Result<(), Fail> {
    // (arguments, how many words)
    for &(arguments, count) in &[(0, 0), (1, 0), (2, 1), (4, 3)] {
        let mut given = Vec::new(rt.alloc());
        for i in 0..arguments {
            given.push(format!(in rt.alloc(); "{i}")?)?;
        }
        let words = words(rt.alloc(), Ok(given.into_iter()))?;
        same(&rt, &arguments, &words.len(), &count);
        for (i, word) in words.iter().enumerate() {
            let expected = format!(in rt.alloc(); "{}", i + 1)?;
            same(&rt, &i, &word.as_str(), &expected.as_str());
        }
    }
    Ok(())
}

#[test]
fn no_words_for_no_text_and_refused_memory(rt: HostRuntime) -> Result<(), Fail> {
    let no_text: io::Result<Args> = Err(io::Error::from(ErrorKind::InvalidData));
    same(&rt, &"no text", &words(rt.alloc(), no_text)?.len(), &0);
    let short: io::Result<Args> = Err(io::Error::from(AllocError));
    assert!(rt; words(rt.alloc(), short).is_err());
    let full: io::Result<Args> = Err(io::Error::from(ErrorKind::OutOfMemory));
    assert!(rt; words(rt.alloc(), full).is_err());
    Ok(())
}
