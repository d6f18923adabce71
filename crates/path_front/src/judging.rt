//! The cells of a sound, judged. Read next: `cells`.
ghost use Rattle.std.specs.Prelude.{◌≡◌, ◌+◌, ◌^◌, ◌<◌, ◌≤◌, ℤ, IfSome, IfNone, List, [], ◌∷◌, length};
ghost use Rattle.path_front.specs.Cells.{IsIdle, SameSound};
ghost use Rattle.step_grid.specs.Grid.{IsGrid};
ghost use Rattle.path_front.specs.Gate.{ear_of};
ghost use Rattle.path_front.specs.Judging.{closed, is_drain, GivesJudged, GivesNone, IsSettled, JudgingStandFor, Takes};
ghost use Rattle.path_front.specs.declared.judging.Phase.TheVariants.{Sound, Rest, Drain};
ghost use Rattle.path_front.specs.declared.measured.Measured.{Measured};

use crate::cells::Cells;
use crate::gate::{Gate, Judged, ear_of};
use std::marker::Model;
use step_grid::Grid;

/// How far the sound is.
#[derive(Clone, Copy)]
pub enum Phase {
    /// More samples may come.
    Sound,
    /// It has ended, and its last cells are given.
    Rest,
    /// All cells have been given, and the last of them are judged.
    Drain,
}

impl Phase {
    /// All cells have been given.
    fn is_drain(self) -> bool
        ensures { result ≡ is_drain self }
    {
        match self {
            Phase::Sound | Phase::Rest => false,
            Phase::Drain => true,
        }
    }

    /// After the last cell: of a sound that has ended all have been given.
    fn closed(self) -> Phase
        ensures { result ≡ closed self }
    {
        match self {
            Phase::Sound => Phase::Sound,
            Phase::Rest | Phase::Drain => Phase::Drain,
        }
    }
}

/// What one more cell brings.
#[derive(Clone, Copy)]
pub enum Taken {
    /// A cell is judged.
    Judges(Judged),
    /// It waits for others behind it.
    Waits,
    /// There is no further cell.
    Nothing,
}

/// The cells of a sound on their way through the gate.
#[derive(Drop)]
pub(crate) struct Judging {
    cells: Cells,
    gate: Gate,
    phase: Phase,
}

impl Model for Judging {
    ghost use Rattle.path_front.specs.Judging.{AreJudging, JudgingState};

    ghost Value = { JudgingState };

    ghost view = { λ s. record { cells = s.cells; gate = s.gate; phase = s.phase } };

    ghost invariant = { λ s. AreJudging (record { cells = s.cells; gate = s.gate; phase = s.phase }) };
}

impl Judging {
    /// Before the first sample.
    pub(crate) fn new(grid: Grid, least: u32) -> Judging
        requires grid { IsGrid grid }
        requires least { least ≤ 2 ^ 15 }
        ensures stands { JudgingStandFor result [] [] }
        ensures grid { result.cells.steps.grid ≡ grid }
        ensures least { result.cells.steps.hold.least ≡ least }
        ensures ear { result.gate.ear ≡ ear_of grid least }
        ensures ahead { result.gate.ahead ≡ [] }
        ensures idle { IsIdle result.cells }
        ensures count { result.cells.steps.clip.count ≡ 0 }
        ensures phase { result.phase ≡ Sound }
    {
        Judging {
            cells: Cells::new(grid, least),
            gate: Gate::new(ear_of(grid, least)),
            phase: Phase::Sound,
        }
    }

    /// Takes the next sample, when nothing is left of those before it.
    pub(crate) fn feed(&mut self, sample: i16)
        requires phase { self.old.phase ≡ Sound }
        requires idle { IsIdle self.old.cells }
        requires room { self.old.cells.steps.clip.count < 2 ^ 37 }
        ensures stands { (samples : List ℤ) (judged : List Measured) → JudgingStandFor self.old samples judged
            → JudgingStandFor self.new (sample ∷ samples) judged }
        ensures grid { self.new.cells.steps.grid ≡ self.old.cells.steps.grid }
        ensures least { self.new.cells.steps.hold.least ≡ self.old.cells.steps.hold.least }
        ensures count { self.new.cells.steps.clip.count ≡ self.old.cells.steps.clip.count + 1 }
        ensures gate { self.new.gate ≡ self.old.gate }
        ensures phase { self.new.phase ≡ Sound }
    {
        self.cells.feed(sample);
    }

    /// Ends the sound, when nothing is left of its samples.
    pub(crate) fn finish(&mut self)
        requires phase { self.old.phase ≡ Sound }
        requires idle { IsIdle self.old.cells }
        ensures stands { (samples : List ℤ) (judged : List Measured) → JudgingStandFor self.old samples judged
            → JudgingStandFor self.new samples judged }
        ensures same { SameSound self.old.cells self.new.cells }
        ensures gate { self.new.gate ≡ self.old.gate }
        ensures phase { self.new.phase ≡ Rest }
    {
        self.cells.finish();
        self.phase = Phase::Rest;
    }

    /// Takes one more cell. If there is none and the sound has ended, all have been given.
    fn take(&mut self) -> Taken
        ensures takes { Takes self.old self.new result }
        ensures same { SameSound self.old.cells self.new.cells }
        ensures ear { self.new.gate.ear ≡ self.old.gate.ear }
    {
        if self.phase.is_drain() {
            return Taken::Nothing;
        }
        let Some(cell) = self.cells.next() else {
            self.phase = self.phase.closed();
            return Taken::Nothing;
        };
        match self.gate.feed(cell) {
            Some(judged) => Taken::Judges(judged),
            None => Taken::Waits,
        }
    }

    /// Judges the next cell that enough others follow.
    fn judge(&mut self) -> Option<Judged>
        ensures gives { IfSome result (λ answer. GivesJudged self.old self.new answer) }
        ensures none { IfNone result (GivesNone self.old self.new) }
        ensures idle { IfNone result (self.new.phase ≡ Sound → IsIdle self.new.cells) }
        ensures closed { IfNone result (self.new.phase ≡ Rest → ⊥) }
        ensures same { SameSound self.old.cells self.new.cells }
        ensures ear { self.new.gate.ear ≡ self.old.gate.ear }
    {
        'cells: loop {
            match self.take() {
                Taken::Judges(judged) => return Some(judged),
                Taken::Waits => (),
                Taken::Nothing => return None,
            }
        }
    }

    /// Judges one of the last cells, when all have been given.
    fn drain(&mut self) -> Option<Judged>
        ensures gives { IfSome result (λ answer. GivesJudged self.old self.new answer) }
        ensures none { IfNone result (self.new ≡ self.old) }
        ensures ahead { IfNone result (self.old.phase ≡ Drain → self.old.gate.ahead ≡ []) }
        ensures same { SameSound self.old.cells self.new.cells }
        ensures ear { self.new.gate.ear ≡ self.old.gate.ear }
    {
        if self.phase.is_drain() {
            self.gate.drain()
        } else {
            None
        }
    }

    /// The next cell that can be judged.
    pub(crate) fn next(&mut self) -> Option<Judged>
        ensures gives { IfSome result (λ answer. GivesJudged self.old self.new answer) }
        ensures none { IfNone result (GivesNone self.old self.new) }
        ensures settled { IfNone result (IsSettled self.new.phase self.new) }
        ensures same { SameSound self.old.cells self.new.cells }
        ensures ear { self.new.gate.ear ≡ self.old.gate.ear }
    {
        match self.judge() {
            Some(judged) => Some(judged),
            None => self.drain(),
        }
    }
}
