//! A source over bytes in memory that is cut and fails as given. Read next: `steady_source`.
ghost use Rattle.std.specs.Prelude.{◌≡◌, ℕ, List, ◌++◌, length, take, drop, Some, IfOk, OnErr};
ghost use Rattle.std.specs.Io.{ReadsAtMost};
ghost use Rattle.std.specs.Io.KnownBytes.{ReadConsumes};
ghost use Rattle.tc_io.specs.Source.{HasCause, ends_after};
ghost use Rattle.tc_io.specs.Memory.{SourceInMemory, piece_of, pull_answer, after_pull, new_source};

use crate::failed::Failed;
use crate::source::{Source, ends_after};
use circular_buffer::HeapCircularBuffer;
use std::alloc::{AllocError, Global};
use std::marker::Model;

/// Bytes in memory, given in pieces of chosen lengths, with pulls that fail.
#[derive(Drop)]
pub struct MemorySource {
    bytes: HeapCircularBuffer<u8>,
    pieces: Vec<usize>,
    failing: Vec<u64>,
    calls: u64,
    pulls: u64,
    faults: u64,
    ends: u64,
}

impl Model for MemorySource {
    ghost Value = { SourceInMemory };

    ghost view = { λ s. record {
      left = s.bytes.items;
      pieces = s.pieces.items;
      failing = s.failing.items;
      calls = s.calls;
      pulls = s.pulls;
      faults = s.faults;
      ends = s.ends;
    } };
}

impl MemorySource {
    /// A source of these bytes.
    ///
    /// The k-th pull that succeeds, from 0, gives at most `pieces[k mod pieces.len()]` bytes, where 0
    /// counts as 1; without pieces there is no such bound. A pull whose number, from 1, is in
    /// `failing` fails. Both numbers stop at `u64::MAX`, as its counts do.
    pub fn new(
        alloc: Global,
        bytes: &[u8],
        pieces: &[usize],
        failing: &[u64],
    ) -> Result<MemorySource, AllocError>
        ensures { IfOk result (λ source. source ≡ new_source bytes.now pieces.now failing.now) }
    {
        let mut ring = HeapCircularBuffer::with_capacity(alloc, bytes.len())?;
        ring.fill_from_slice(bytes);
        Ok(MemorySource {
            bytes: ring,
            pieces: pieces.to_vec(alloc)?,
            failing: failing.to_vec(alloc)?,
            calls: 0,
            pulls: 0,
            faults: 0,
            ends: 0,
        })
    }
}

impl Source for MemorySource {
    ghost left = { λ s. Some s.left };

    ghost faults = { λ s. s.faults };

    ghost ends = { λ s. s.ends };

    fn pull(&mut self, buf: &mut [u8]) -> Result<usize, Failed>
        ensures bound { ReadsAtMost result buf.new }
        ensures bytes { ReadConsumes (Some self.old.left) (Some self.new.left) result buf.new }
        ensures cause { HasCause self.old.faults self.new.faults result }
        ensures end { self.new.ends ≡ ends_after self.old.ends result (length buf.old) }

        // Which answer it is, and the state afterwards.
        ensures answer { result ≡ pull_answer self.old (length buf.old) }
        ensures after { self.new ≡ after_pull self.old (length buf.old) }
        ensures front { IfOk result (λ given. buf.new ≡ take given self.old.left ++ drop given buf.old) }
        ensures untouched { OnErr result (buf.new ≡ buf.old) }
    {
        self.calls = self.calls.saturating_add(1);
        let answer = if self.failing.contains(&self.calls) {
            self.faults = self.faults.saturating_add(1);
            Err(Failed)
        } else {
            let most = piece(&self.pieces, self.pulls, buf.len());
            self.pulls = self.pulls.saturating_add(1);
            Ok(self.bytes.read_into(&mut buf[..most]))
        };
        self.ends = ends_after(self.ends, &answer, buf.len());
        answer
    }
}

// How many bytes the next pull gives at most.
fn piece(pieces: &[usize], pulls: u64, room: usize) -> usize
    ensures { result ≡ piece_of pieces.now pulls room }
{
    if pieces.is_empty() {
        return room;
    }
    let place = (pulls % pieces.len() as u64) as usize;
    room.min(pieces[place].max(1))
}
