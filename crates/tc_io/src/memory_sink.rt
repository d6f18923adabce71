//! A sink into memory whose room is taken at the making.
ghost use Rattle.std.specs.Prelude.{◌≡◌, ℕ, ◌≤◌, List, length, vec_capacity, Some, IfOk};
ghost use Rattle.std.specs.Io.{WritesAtMost};
ghost use Rattle.std.specs.Io.KnownBytes.{WriteAppends};
ghost use Rattle.tc_io.specs.Source.{HasCause};
ghost use Rattle.tc_io.specs.Sink.{TakesSome};
ghost use Rattle.tc_io.specs.Memory.{SinkInMemory, push_answer, after_push, new_sink};

use crate::failed::Failed;
use crate::sink::Sink;
use std::alloc::{AllocError, Global};
use std::marker::Model;

/// Bytes in memory, up to a room, with pushes that fail.
#[derive(Drop)]
pub struct MemorySink {
    bytes: Vec<u8>,
    room: usize,
    failing: Vec<u64>,
    calls: u64,
    faults: u64,
}

impl Model for MemorySink {
    ghost Value = { SinkInMemory };

    ghost view = { λ s. record {
      written = s.bytes.items;
      room = s.room;
      failing = s.failing.items;
      calls = s.calls;
      faults = s.faults;
    } };

    ghost invariant = { λ s. (length s.bytes.items ≤ s.room) × (s.room ≤ vec_capacity s.bytes) };
}

impl MemorySink {
    /// A sink with room for `room` bytes, all of which it takes now.
    ///
    /// A push takes as much of its piece as fits, and fails if that is nothing of a piece that is
    /// not empty. A push whose number, from 1, is in `failing` fails. The number stops at
    /// `u64::MAX`, as the count of faults does.
    pub fn new(alloc: Global, room: usize, failing: &[u64]) -> Result<MemorySink, AllocError>
        ensures { IfOk result (λ sink. sink ≡ new_sink room failing.now) }
    {
        Ok(MemorySink {
            bytes: Vec::with_capacity(alloc, room)?,
            room,
            failing: failing.to_vec(alloc)?,
            calls: 0,
            faults: 0,
        })
    }

    /// What was written.
    pub fn written(&self) -> &[u8]
        ensures { result.now ≡ self.now.written }
    {
        &self.bytes
    }
}

impl Sink for MemorySink {
    ghost written = { λ s. Some s.written };

    ghost faults = { λ s. s.faults };

    fn push(&mut self, piece: &[u8]) -> Result<usize, Failed>
        ensures bound { WritesAtMost result piece.now }
        ensures moves { TakesSome result piece.now }
        ensures bytes { WriteAppends (Some self.old.written) (Some self.new.written) result piece.now }
        ensures cause { HasCause self.old.faults self.new.faults result }

        // Which answer it is, and the state afterwards.
        ensures answer { result ≡ push_answer self.old (length piece.now) }
        ensures after { self.new ≡ after_push self.old piece.now }
    {
        self.calls = self.calls.saturating_add(1);
        let fitting = piece.len().min(self.room - self.bytes.len());
        let is_refused = fitting == 0 && !piece.is_empty();
        if is_refused || self.failing.contains(&self.calls) {
            self.faults = self.faults.saturating_add(1);
            return Err(Failed);
        }
        if self.bytes.extend_from_slice(&piece[..fitting]).is_err() {
            unreachable!();
        }
        Ok(fitting)
    }
}
