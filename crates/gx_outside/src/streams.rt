// The standard streams as a source and a sink: their bytes are those that the reader has left and the writer holds.
ghost use Rattle.std.specs.Prelude.{◌≡◌};

use crate::sink::Sink;
use crate::source::{Failed, Source};
use std::io::{Read, Write};

/// A source over a reader, such as the standard input.
#[derive(Drop)]
pub struct StdinSource<R: Read> {
    reader: R,
    faults: u64,
}

impl<R: Read> StdinSource<R> {
    /// A source that has not failed yet.
    pub fn new(reader: R) -> StdinSource<R>
        ensures { result ≡ record { reader = reader; faults = 0 } }
    {
        StdinSource { reader, faults: 0 }
    }
}

impl<R: Read> Source for StdinSource<R> {
    ghost left = { λ source. R.remaining source.reader };

    ghost fault_count = { λ source. source.faults };

    fn read(&mut self, buf: &mut [u8]) -> Result<usize, Failed> {
        match self.reader.read(buf) {
            Ok(count) => Ok(count),
            Err(_) => {
                self.faults = self.faults.saturating_add(1);
                Err(Failed)
            }
        }
    }

    fn faults(&self) -> u64 {
        self.faults
    }
}

/// A sink over a writer, such as the standard output. A write of no byte is a fault.
#[derive(Drop)]
pub struct StdoutSink<W: Write> {
    writer: W,
    faults: u64,
}

impl<W: Write> StdoutSink<W> {
    /// A sink that has not failed yet.
    pub fn new(writer: W) -> StdoutSink<W>
        ensures { result ≡ record { writer = writer; faults = 0 } }
    {
        StdoutSink { writer, faults: 0 }
    }
}

impl<W: Write> Sink for StdoutSink<W> {
    ghost written = { λ sink. W.contents sink.writer };

    ghost fault_count = { λ sink. sink.faults };

    fn write(&mut self, bytes: &[u8]) -> Result<usize, Failed> {
        if let Ok(count) = self.writer.write(bytes)
            && count > 0
        {
            return Ok(count);
        }
        self.faults = self.faults.saturating_add(1);
        Err(Failed)
    }

    fn faults(&self) -> u64 {
        self.faults
    }
}
