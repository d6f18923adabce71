//! A word that was heard, in numbers. Read next: `frame`.
ghost use Rattle.std.specs.Prelude.{◌≡◌, Some, IfSome};
ghost use Rattle.flywheel.specs.declared.heard.HeardWord.{HeardWord};
ghost use Rattle.tc_address.specs.declared.direction.Direction.{Direction};
ghost use Rattle.tc_c.specs.CEvent.{direction_number};
ghost use Rattle.tc_c.specs.CFrame.{MeansHeard};

use crate::label::TcLabel;
use flywheel::HeardWord;
use tc_address::Direction;

/// Ticks are below this one.
const END_OF_TIME: u64 = 1 << 60;

/// Lengths are below this one.
const END_OF_LENGTHS: u64 = 1 << 32;

/// A word that was heard, in numbers. Those of no word mean nothing.
#[repr(C)]
#[derive(Clone, Copy)]
pub struct TcHeard {
    pub label: TcLabel,
    /// 0 forward, 1 backward.
    pub direction: u32,
    /// The tick at which it ended, below 2 to the 60th.
    pub tick: u64,
    /// How many ticks it lasted, from 1 to 2 to the 32nd less 1.
    pub length: u64,
}

impl TcHeard {
    /// The word that they mean, where they mean one.
    pub(crate) fn meaning(&self) -> Option<HeardWord>
        ensures means { IfSome result (MeansHeard self.now) }
        ensures only { (word : HeardWord) → MeansHeard self.now word → result ≡ Some word }
    {
        let label = self.label.meaning()?;
        let direction = direction_of(self.direction)?;
        if self.tick >= END_OF_TIME || self.length < 1 || self.length >= END_OF_LENGTHS {
            return None;
        }
        Some(HeardWord {
            label,
            direction,
            tick: self.tick,
            length: self.length,
        })
    }
}

/// The direction of a number, where there is one.
pub(crate) fn direction_of(number: u32) -> Option<Direction>
    ensures means { IfSome result (λ d. direction_number d ≡ number) }
    ensures only { (d : Direction) → direction_number d ≡ number → result ≡ Some d }
{
    match number {
        0 => Some(Direction::Forward),
        1 => Some(Direction::Backward),
        _ => None,
    }
}
