//! The way of what an engine writes to a sink. Read next: `tc_io/src/sink.rt`.
ghost use Rattle.std.specs.Prelude.{◌≡◌, ◌+◌, ◌≤◌, [], false, true, OnOk, OnErr};
ghost use Rattle.arrayvec.specs.ArrayVec.{array_vec_len};
ghost use Rattle.tc_command.specs.Outlet.{IsGiven};

use crate::output::Output;
use crate::piece::Piece;
use tc_io::{Failed, Sink, push_all};

/// What is gathered, and the sink that it is pushed to. After a push that failed there is none any more: what an engine
/// still writes goes nowhere, and `flush` says so.
#[derive(Drop)]
pub(crate) struct Outlet<'a, K> {
    pub(crate) sink: &'a mut K,
    pub(crate) gathered: Piece,
    pub(crate) has_failed: bool,
}

impl<'a, K: Sink> Outlet<'a, K> {
    /// The way to a sink, with nothing gathered.
    pub(crate) fn new(sink: &'a mut K) -> Outlet<'a, K>
        ensures same { result.sink.ghost_name ≡ sink.entry.ghost_name }
        ensures is { result.sink.now ≡ sink.old }
        ensures empty { result.gathered.items ≡ [] }
        ensures going { result.has_failed ≡ false }
    {
        Outlet {
            sink,
            gathered: Piece::new(),
            has_failed: false,
        }
    }

    /// Pushes what is gathered. It fails if a push ever failed.
    pub(crate) fn flush(&mut self) -> Result<(), Failed>
        ensures same { self.new.sink.ghost_name ≡ self.old.sink.ghost_name }
        ensures given { IsGiven (K.written self.old.sink.now) (K.written self.new.sink.now)
            (K.faults self.old.sink.now) (K.faults self.new.sink.now) self.old.gathered.items self.new.gathered.items
            self.old.has_failed self.new.has_failed [] }
        ensures empty { OnOk result (self.new.gathered.items ≡ []) }
        ensures going { OnOk result (self.new.has_failed ≡ false) }
        ensures failed { OnErr result (self.new.has_failed ≡ true) }
    {
        self.push_gathered();
        if self.has_failed { Err(Failed) } else { Ok(()) }
    }

    /// Pushes what is gathered, unless a push failed.
    #[inline(always)]
    fn push_gathered(&mut self)
        ensures same { self.new.sink.ghost_name ≡ self.old.sink.ghost_name }
        ensures given { IsGiven (K.written self.old.sink.now) (K.written self.new.sink.now)
            (K.faults self.old.sink.now) (K.faults self.new.sink.now) self.old.gathered.items self.new.gathered.items
            self.old.has_failed self.new.has_failed [] }
        ensures empty { self.new.gathered.items ≡ [] }
    {
        if !self.gathered.is_empty() {
            self.push_room();
        }
    }

    /// The same, where something is.
    // Out of line: it is rare, and the loops that gather and write are short only without it.
    #[inline(never)]
    fn push_room(&mut self)
        ensures same { self.new.sink.ghost_name ≡ self.old.sink.ghost_name }
        ensures given { IsGiven (K.written self.old.sink.now) (K.written self.new.sink.now)
            (K.faults self.old.sink.now) (K.faults self.new.sink.now) self.old.gathered.items self.new.gathered.items
            self.old.has_failed self.new.has_failed [] }
        ensures empty { self.new.gathered.items ≡ [] }
    {
        if !self.has_failed {
            self.has_failed = push_all(self.sink, self.gathered.as_slice()).is_err();
        }
        self.gathered.clear();
    }

    /// Pushes bytes where nothing is gathered, unless a push failed.
    fn push(&mut self, bytes: &[u8])
        requires { self.old.gathered.items ≡ [] }
        ensures same { self.new.sink.ghost_name ≡ self.old.sink.ghost_name }
        ensures given { IsGiven (K.written self.old.sink.now) (K.written self.new.sink.now)
            (K.faults self.old.sink.now) (K.faults self.new.sink.now) self.old.gathered.items self.new.gathered.items
            self.old.has_failed self.new.has_failed bytes.now }
    {
        if !self.has_failed {
            self.has_failed = push_all(self.sink, bytes).is_err();
        }
    }

    /// Has room for so many bytes more: what is gathered is pushed if they do not fit.
    #[inline(always)]
    fn make_room(&mut self, count: usize)
        requires { count ≤ 4096 }
        ensures same { self.new.sink.ghost_name ≡ self.old.sink.ghost_name }
        ensures given { IsGiven (K.written self.old.sink.now) (K.written self.new.sink.now)
            (K.faults self.old.sink.now) (K.faults self.new.sink.now) self.old.gathered.items self.new.gathered.items
            self.old.has_failed self.new.has_failed [] }
        ensures room { array_vec_len self.new.gathered + count ≤ 4096 }
    {
        if self.gathered.remaining_capacity() < count {
            self.push_gathered();
        }
    }
}

impl<K: Sink> Output for Outlet<'_, K> {
    ghost use Rattle.std.specs.Prelude.{◌≡◌};
    ghost use Rattle.std.proofs.Common.{refl, ◌∙◌};
    ghost use Rattle.tc_command.specs.Outlet.{IsGiven};
    ghost use Rattle.tc_command.specs.OutletLemmas.{nothing_given, more_given};

    ghost given = { λ a b bytes. (b.sink.ghost_name ≡ a.sink.ghost_name)
        × IsGiven (K.written a.sink.now) (K.written b.sink.now) (K.faults a.sink.now) (K.faults b.sink.now)
        a.gathered.items b.gathered.items a.has_failed b.has_failed bytes };

    ghost given_none = { λ out. (refl, nothing_given _ _ _ _) };

    ghost given_more = { λ a b c bytes more first then.
        (then.0 ∙ first.0, more_given _ _ _ _ _ _ _ _ _ _ _ _ bytes more first.1 then.1) };

    fn write(&mut self, bytes: &[u8]) {
        self.push_gathered();
        self.push(bytes);
    }

    #[inline(always)]
    fn gather(&mut self, bytes: &[u8]) {
        self.make_room(bytes.len());
        if self.gathered.try_extend_from_slice(bytes).is_err() {
            unreachable!();
        }
    }
}
