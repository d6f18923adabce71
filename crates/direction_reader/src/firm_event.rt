//! What a reader that needs a witness for each word answers.
ghost use Rattle.std.specs.Prelude.{◌≡◌};

use crate::event::Event;
use ltc_word::LtcWord;
use tc_address::Direction;

/// What an interval brought to a reader that needs a witness for each word.
#[derive(Clone, Copy)]
pub enum FirmEvent {
    /// What is read without a witness too: a word that has one, or that is at the edge of its
    /// stretch; a candidate with a fault in its fields; a break.
    Told(Event),
    /// A word without a witness. It is refused: nobody may have recorded it.
    Alone {
        direction: Direction,
        word: LtcWord,
        tick: u64,
        /// The sum of the intervals of its 80 cells, in ticks.
        length: u64,
    },
}

impl FirmEvent {
    ghost use Rattle.direction_reader.specs.Firm.{told_tick};

    /// Its tick.
    pub(crate) fn tick(&self) -> u64
        ensures { result ≡ told_tick self.now }
    {
        match self {
            FirmEvent::Told(event) => event.tick(),
            FirmEvent::Alone { tick, .. } => *tick,
        }
    }
}

/// What one interval brought, in order: at most three, since a word may have waited for its witness
/// and a candidate behind it.
#[derive(Clone, Copy)]
pub struct FirmEvents {
    pub first: Option<FirmEvent>,
    pub second: Option<FirmEvent>,
    pub third: Option<FirmEvent>,
}

impl FirmEvents {
    ghost use Rattle.direction_reader.specs.FirmStep.{nothing_told};

    /// No event.
    pub(crate) fn none() -> FirmEvents
        ensures { result ≡ nothing_told }
    {
        FirmEvents {
            first: None,
            second: None,
            third: None,
        }
    }
}
