//! The way of an input to an engine: what was pulled, behind what the engine left. Read next: `tc_io/src/source.rt`.
ghost use Rattle.std.specs.Prelude.{◌≡◌, ℕ, ◌≤◌, List, [], ◌++◌, length, drop, IfOk, OnErr};
ghost use Rattle.std.specs.Io.KnownBytes.{Consumes, IsAtEnd, Keeps};
ghost use Rattle.tc_io.specs.Source.{HasCause, ends_after};

use std::marker::Model;
use tc_io::{Failed, Source};

/// The most bytes of one pull.
pub const PULLED: usize = 4096;

/// An engine leaves fewer bytes than this, the longest row of `luma-vitc`.
pub const KEPT: usize = 4096;

/// The bytes that were pulled and not yet worked on, in order.
#[derive(Drop)]
pub(crate) struct Inlet {
    room: [u8; KEPT + PULLED],
    count: usize,
}

impl Model for Inlet {
    ghost use Rattle.std.specs.Prelude.{◌≤◌, ℕ, List, take};

    ghost Value = { List ℕ };

    ghost view = { λ s. take s.count s.room };

    ghost invariant = { λ s. s.count ≤ 8192 };
}

impl Inlet {
    /// Before the first pull.
    pub(crate) fn new() -> Inlet
        ensures { result ≡ [] }
    {
        Inlet {
            room: [0; KEPT + PULLED],
            count: 0,
        }
    }

    /// Pulls bytes behind those that are there, and answers how many. None are the end of the input.
    pub(crate) fn pull<S: Source>(&mut self, source: &mut S) -> Result<usize, Failed>
        requires { length self.old ≤ KEPT }
        ensures bytes { IfOk result (λ count. (more : List ℕ) × (self.new ≡ self.old ++ more) × (length more ≡ count)
            × Consumes (S.left source.old) (S.left source.new) more × (count ≡ 0 → IsAtEnd (S.left source.new))) }
        ensures kept { OnErr result (Keeps (S.left source.old) (S.left source.new)) }
        ensures cause { HasCause (S.faults source.old) (S.faults source.new) result }
        ensures end { S.ends source.new ≡ ends_after (S.ends source.old) result PULLED }
    {
        let before = self.count;
        let count = source.pull(&mut self.room[before..before + PULLED])?;
        self.count = before + count;
        Ok(count)
    }

    /// The bytes.
    pub(crate) fn as_slice(&self) -> &[u8]
        ensures { result.now ≡ self.now }
    {
        &self.room[..self.count]
    }

    /// Leaves out the first `count` of the bytes.
    pub(crate) fn leave_out(&mut self, count: usize)
        requires { count ≤ length self.old }
        ensures { self.new ≡ drop count self.old }
    {
        self.room.copy_within(count..self.count, 0);
        self.count -= count;
    }
}
