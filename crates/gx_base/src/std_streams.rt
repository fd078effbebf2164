//! Sources and sinks over std's readers and writers.
ghost use Rattle.std.specs.Prelude.{◌≡◌, ◌<◌, ◌≤◌, None, take, length, IfOk, OnErr, is_ok, if◌then◌else◌};
ghost use Rattle.std.specs.Io.KnownBytes.{Appends, ReadConsumes};
ghost use Rattle.gx_base.specs.Stream.{raised, Rose};

use crate::sink::Sink;
use crate::source::{Failed, Source};
use std::io::{Read, Write};
use std::marker::Model;

/// What a reader gives. It does not tell what is left, and counts the reader's errors.
#[derive(Drop)]
pub struct StdSource<R> {
    reader: R,
    faults: u64,
}

impl<R> Model for StdSource<R> {
    ghost use Rattle.gx_base.specs.StdStreams.{Counted};

    ghost Value = { Counted R };

    ghost view = { λ s. record { stream = s.reader; faults = s.faults } };
}

impl<R: Read> StdSource<R> {
    /// A source over this reader, which has not failed yet.
    pub fn new(reader: R) -> StdSource<R>
        ensures { result ≡ record { stream = reader; faults = 0 } }
    {
        StdSource { reader, faults: 0 }
    }
}

impl<R: Read> Source for StdSource<R> {
    ghost told = { λ s. record { bytes = None; faults = s.faults } };

    fn read(&mut self, buf: &mut [u8]) -> Result<usize, Failed>
        requires some_room { 0 < length buf.old }
        requires one_piece { length buf.old ≤ 4096 }

        ensures never_falls { self.old.faults ≤ self.new.faults }
        ensures within { IfOk result (λ k. k ≤ length buf.new) }
        ensures fault { OnErr result (Rose self.old.faults self.new.faults) }

        ensures count { self.new.faults ≡
            (if is_ok result then self.old.faults else raised self.old.faults) }

        // Where the reader tells its bytes, these are the next of them.
        ensures consumed { ReadConsumes (R.remaining self.old.stream) (R.remaining self.new.stream)
            result buf.new }
    {
        match self.reader.read(buf) {
            Ok(count) => Ok(count),
            Err(_) => {
                self.faults = self.faults.saturating_add(1);
                Err(Failed)
            }
        }
    }
}

/// What takes bytes for a writer. It does not tell what was taken, and counts the writer's errors,
/// and each write that takes nothing. Each write is flushed, so that a buffer hides no error.
#[derive(Drop)]
pub struct StdSink<W> {
    writer: W,
    faults: u64,
}

impl<W> Model for StdSink<W> {
    ghost use Rattle.gx_base.specs.StdStreams.{Counted};

    ghost Value = { Counted W };

    ghost view = { λ s. record { stream = s.writer; faults = s.faults } };
}

impl<W: Write> StdSink<W> {
    /// A sink over this writer, which has not failed yet.
    pub fn new(writer: W) -> StdSink<W>
        ensures { result ≡ record { stream = writer; faults = 0 } }
    {
        StdSink { writer, faults: 0 }
    }
}

impl<W: Write> Sink for StdSink<W> {
    ghost told = { λ s. record { bytes = None; faults = s.faults } };

    fn write(&mut self, piece: &[u8]) -> Result<usize, Failed>
        requires { 0 < length piece.now }

        ensures never_falls { self.old.faults ≤ self.new.faults }
        ensures some { IfOk result (λ k. 1 ≤ k) }
        ensures within { IfOk result (λ k. k ≤ length piece.now) }
        ensures fault { OnErr result (Rose self.old.faults self.new.faults) }

        ensures count { self.new.faults ≡
            (if is_ok result then self.old.faults else raised self.old.faults) }

        // Where the writer tells its bytes, these are the last of them.
        ensures appended { IfOk result (λ k.
            Appends (W.contents self.old.stream) (W.contents self.new.stream) (take k piece.now)) }
    {
        match write_through(&mut self.writer, piece) {
            Ok(count) => Ok(count),
            Err(failed) => {
                self.faults = self.faults.saturating_add(1);
                Err(failed)
            }
        }
    }
}

// Writes some of the piece past each buffer, and says how many bytes: one at least.
fn write_through<W: Write>(writer: &mut W, piece: &[u8]) -> Result<usize, Failed>
    ensures some { IfOk result (λ k. 1 ≤ k) }
    ensures within { IfOk result (λ k. k ≤ length piece.now) }
    ensures appended { IfOk result (λ k.
        Appends (W.contents writer.old) (W.contents writer.new) (take k piece.now)) }
{
    match writer.write(piece) {
        Ok(0) | Err(_) => Err(Failed),
        Ok(count) => match writer.flush() {
            Ok(()) => Ok(count),
            Err(_) => Err(Failed),
        },
    }
}
