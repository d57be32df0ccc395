// The standard streams. They tell no bytes: what they carry is trusted.
ghost use Rattle.std.specs.Prelude.{◌≡◌, ◌<◌, length, take, IfOk, OnErr, is_err};
ghost use Rattle.std.specs.Io.{ReadsAtMost, WritesAtMost};
ghost use Rattle.cs_base.specs.Counts.{count_up};
ghost use Rattle.cs_outside.specs.Outside.{HasCause, Takes, Adds, IsAtEnd, untold};
ghost use Rattle.cs_outside.specs.Memory.{counted};

use super::counted::{Counts, read_counted, write_counted};
use super::{Failed, Sink, Source};
use std::io::{Stdin, Stdout};

/// The program's standard input.
#[derive(Drop)]
pub struct StdSource {
    stream: Stdin,
    counts: Counts,
}

impl StdSource {
    ghost use Rattle.cs_outside.specs.Standard.{source_faults, source_calls};

    /// A source over the standard input, with no fault so far.
    pub fn new(stream: Stdin) -> StdSource
        ensures faults { source_faults result ≡ 0 }
        ensures calls { source_calls result ≡ 0 }
    {
        StdSource {
            stream,
            counts: Counts::new(),
        }
    }
}

impl Source for StdSource {
    ghost left = { λ _. untold };

    ghost faults = { λ s. s.counts.faults };

    ghost calls = { λ s. s.counts.calls };

    fn read(&mut self, buf: &mut [u8]) -> Result<usize, Failed>
        ensures bound { ReadsAtMost result buf.new }
        ensures ok { IfOk result (λ n. Takes untold untold (take n buf.new)) }
        ensures end { IfOk result (λ n. n ≡ 0 → 0 < length buf.old → IsAtEnd untold) }
        ensures err { OnErr result (untold ≡ untold) }
        ensures cause { HasCause self.old.counts.faults self.new.counts.faults result }
        ensures called { self.new.counts.calls ≡ count_up self.old.counts.calls }
        ensures faults { self.new.counts.faults ≡ counted (is_err result) self.old.counts.faults }
    {
        read_counted(&mut self.stream, buf, &mut self.counts)
    }
}

/// The program's standard output.
#[derive(Drop)]
pub struct StdSink {
    stream: Stdout,
    counts: Counts,
}

impl StdSink {
    ghost use Rattle.cs_outside.specs.Standard.{sink_faults, sink_calls};

    /// A sink over the standard output, with no fault so far.
    pub fn new(stream: Stdout) -> StdSink
        ensures faults { sink_faults result ≡ 0 }
        ensures calls { sink_calls result ≡ 0 }
    {
        StdSink {
            stream,
            counts: Counts::new(),
        }
    }
}

impl Sink for StdSink {
    ghost held = { λ _. untold };

    ghost faults = { λ s. s.counts.faults };

    ghost calls = { λ s. s.counts.calls };

    fn write(&mut self, piece: &[u8]) -> Result<usize, Failed>
        ensures bound { WritesAtMost result piece.now }
        ensures progress { IfOk result (λ n. 0 < length piece.now → 0 < n) }
        ensures ok { IfOk result (λ n. Adds untold untold (take n piece.now)) }
        ensures err { OnErr result (untold ≡ untold) }
        ensures cause { HasCause self.old.counts.faults self.new.counts.faults result }
        ensures called { self.new.counts.calls ≡ count_up self.old.counts.calls }
        ensures faults { self.new.counts.faults ≡ counted (is_err result) self.old.counts.faults }
    {
        write_counted(&mut self.stream, piece, &mut self.counts)
    }
}
