//! A real reader as a source and a real writer as a sink: the trusted edge. Last: what is pushed here has
//! left the program.
//!
//! Each call makes one read or one write, and keeps nothing back. What was read or written is known
//! only by the answer of the operating system, so these two have no known bytes.
ghost use Rattle.std.specs.Prelude.{◌≡◌, ℕ, length, None, OnOk, OnErr};
ghost use Rattle.std.specs.Io.{ReadsAtMost, WritesAtMost};
ghost use Rattle.std.specs.Io.KnownBytes.{ReadConsumes, WriteAppends};
ghost use Rattle.tc_io.specs.Source.{HasCause, ends_after, one_more};
ghost use Rattle.tc_io.specs.Sink.{TakesSome};

use crate::failed::Failed;
use crate::sink::Sink;
use crate::source::{Source, ends_after};
use std::io::{Read, Write};
use std::marker::Model;

/// A reader as a source. Each of its errors is a fault.
#[derive(Drop)]
pub struct ReadSource<R> {
    reader: R,
    faults: u64,
    ends: u64,
}

impl<R> Model for ReadSource<R> {
    ghost use Rattle.tc_io.specs.Adapters.{AdaptedReader};

    ghost Value = { AdaptedReader R };

    ghost view = { λ s. record { inner = s.reader; faults = s.faults; ends = s.ends } };
}

impl<R> ReadSource<R> {
    /// A source that reads from here.
    pub fn new(reader: R) -> ReadSource<R>
        ensures { result ≡ record { inner = reader; faults = 0; ends = 0 } }
    {
        ReadSource {
            reader,
            faults: 0,
            ends: 0,
        }
    }
}

impl<R: Read> Source for ReadSource<R> {
    ghost left = { λ _. None };

    ghost faults = { λ s. s.faults };

    ghost ends = { λ s. s.ends };

    fn pull(&mut self, buf: &mut [u8]) -> Result<usize, Failed>
        ensures bound { ReadsAtMost result buf.new }
        ensures bytes { ReadConsumes None None result buf.new }
        ensures cause { HasCause self.old.faults self.new.faults result }
        ensures end { self.new.ends ≡ ends_after self.old.ends result (length buf.old) }

        // What the reader gave is what the source gives, and each error counts one.
        ensures passes { ReadConsumes (R.remaining self.old.inner) (R.remaining self.new.inner) result buf.new }
        ensures counts { OnErr result (self.new.faults ≡ one_more self.old.faults) }
    {
        let answer = match self.reader.read(buf) {
            Ok(given) => Ok(given),
            Err(_) => {
                self.faults = self.faults.saturating_add(1);
                Err(Failed)
            }
        };
        self.ends = ends_after(self.ends, &answer, buf.len());
        answer
    }
}

/// A writer as a sink. Each of its errors is a fault, and so is a write that takes nothing of a
/// piece that is not empty.
#[derive(Drop)]
pub struct WriteSink<W> {
    writer: W,
    faults: u64,
}

impl<W> Model for WriteSink<W> {
    ghost use Rattle.tc_io.specs.Adapters.{AdaptedWriter};

    ghost Value = { AdaptedWriter W };

    ghost view = { λ s. record { inner = s.writer; faults = s.faults } };
}

impl<W> WriteSink<W> {
    /// A sink that writes to here.
    pub fn new(writer: W) -> WriteSink<W>
        ensures { result ≡ record { inner = writer; faults = 0 } }
    {
        WriteSink { writer, faults: 0 }
    }
}

impl<W: Write> Sink for WriteSink<W> {
    ghost written = { λ _. None };

    ghost faults = { λ s. s.faults };

    fn push(&mut self, piece: &[u8]) -> Result<usize, Failed>
        ensures bound { WritesAtMost result piece.now }
        ensures moves { TakesSome result piece.now }
        ensures bytes { WriteAppends None None result piece.now }
        ensures cause { HasCause self.old.faults self.new.faults result }

        // What the sink took is what the writer took, and each error counts one.
        ensures passes { WriteAppends (W.contents self.old.inner) (W.contents self.new.inner) result piece.now }
        ensures counts { OnErr result (self.new.faults ≡ one_more self.old.faults) }
    {
        match self.writer.write(piece) {
            Ok(taken) if taken > 0 || piece.is_empty() => Ok(taken),
            _ => {
                self.faults = self.faults.saturating_add(1);
                Err(Failed)
            }
        }
    }
}
