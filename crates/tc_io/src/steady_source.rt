//! A source over bytes in memory that never fails. Read next: `memory_sink`.
ghost use Rattle.std.specs.Prelude.{◌≡◌, ◌++◌, length, take, drop, Some, IfOk};
ghost use Rattle.std.specs.Io.{ReadsAtMost};
ghost use Rattle.std.specs.Io.KnownBytes.{ReadConsumes};
ghost use Rattle.tc_io.specs.Source.{HasCause, ends_after};
ghost use Rattle.tc_io.specs.Memory.{SteadyInMemory, new_steady, steady_answer, after_steady};

use crate::failed::Failed;
use crate::source::{Source, ends_after};
use circular_buffer::HeapCircularBuffer;
use std::alloc::{AllocError, Global};
use std::marker::Model;

/// Bytes in memory, of which each pull gives as many as fit.
#[derive(Drop)]
pub struct SteadySource {
    bytes: HeapCircularBuffer<u8>,
    ends: u64,
}

impl Model for SteadySource {
    ghost Value = { SteadyInMemory };

    ghost view = { λ s. record { left = s.bytes.items; ends = s.ends } };
}

impl SteadySource {
    /// A source of these bytes.
    pub fn new(alloc: Global, bytes: &[u8]) -> Result<SteadySource, AllocError>
        ensures { IfOk result (λ source. source ≡ new_steady bytes.now) }
    {
        let mut ring = HeapCircularBuffer::with_capacity(alloc, bytes.len())?;
        ring.fill_from_slice(bytes);
        Ok(SteadySource {
            bytes: ring,
            ends: 0,
        })
    }
}

impl Source for SteadySource {
    ghost left = { λ s. Some s.left };

    ghost faults = { λ _. 0 };

    ghost ends = { λ s. s.ends };

    fn pull(&mut self, buf: &mut [u8]) -> Result<usize, Failed>
        ensures bound { ReadsAtMost result buf.new }
        ensures bytes { ReadConsumes (Some self.old.left) (Some self.new.left) result buf.new }
        ensures cause { HasCause 0 0 result }
        ensures end { self.new.ends ≡ ends_after self.old.ends result (length buf.old) }

        // Which answer it is, and the state afterwards.
        ensures answer { result ≡ steady_answer self.old (length buf.old) }
        ensures after { self.new ≡ after_steady self.old (length buf.old) }
        ensures front { IfOk result (λ given. buf.new ≡ take given self.old.left ++ drop given buf.old) }
    {
        let answer = Ok(self.bytes.read_into(buf));
        self.ends = ends_after(self.ends, &answer, buf.len());
        answer
    }
}
