//! A frame in numbers. Read next: `wheel_kept`.
ghost use Rattle.std.specs.Prelude.{◌≡◌, ℕ, Bool, Some, IfSome};
ghost use Rattle.flywheel.specs.declared.frame.Frame.{Frame};
ghost use Rattle.flywheel.specs.declared.frame.Frame.TheVariants.{Heard, Invented, Gone};
ghost use Rattle.tc_address.specs.declared.direction.Direction.{Direction};
ghost use Rattle.tc_address.specs.Label.{Address};
ghost use Rattle.tc_c.specs.CFrame.{c_frame, MeansFrame};

use crate::event::direction_number;
use crate::heard::direction_of;
use crate::label::{TcLabel, no_label};
use crate::tape_settings::flag_of;
use flywheel::Frame;

/// A frame in numbers. Those that say nothing of it are 0.
#[repr(C)]
#[derive(Clone, Copy)]
pub struct TcFrame {
    /// 1 heard, 2 invented, 3 the end of what may be invented.
    pub kind: u32,
    /// 0 forward, 1 backward.
    pub direction: u32,
    /// Of a heard one, 1 where it goes on where the word before leads, after the frames invented in between.
    pub joined: u32,
    /// Of an invented one, how many labels it lies after the word before, from 1 to the limit.
    pub step: u32,
    pub label: TcLabel,
    /// 0.
    pub zero: u32,
    /// The tick of its end.
    pub tick: u64,
}

impl TcFrame {
    /// The frame that they mean, where they mean one.
    pub(crate) fn meaning(&self) -> Option<Frame>
        ensures means { IfSome result (MeansFrame self.now) }
        ensures only { (f : Frame) → MeansFrame self.now f → result ≡ Some f }
    {
        if self.zero != 0 {
            return None;
        }
        match self.kind {
            1 => self.heard(),
            2 => self.invented(),
            3 => self.gone(),
            _ => None,
        }
    }

    /// The heard frame that they mean.
    fn heard(&self) -> Option<Frame>
        requires kind { self.now.kind ≡ 1 }
        requires zero { self.now.zero ≡ 0 }
        ensures means { IfSome result (MeansFrame self.now) }
        ensures only { (a : Address) (d : Direction) (joined : Bool) (tick : ℕ)
            → MeansFrame self.now (Heard a d joined tick) → result ≡ Some (Heard a d joined tick) }
    {
        let label = self.label.meaning()?;
        let direction = direction_of(self.direction)?;
        let joined = flag_of(self.joined)?;
        if self.step != 0 {
            return None;
        }
        Some(Frame::Heard {
            label,
            direction,
            joined,
            tick: self.tick,
        })
    }

    /// The invented frame that they mean.
    fn invented(&self) -> Option<Frame>
        requires kind { self.now.kind ≡ 2 }
        requires zero { self.now.zero ≡ 0 }
        ensures means { IfSome result (MeansFrame self.now) }
        ensures only { (a : Address) (d : Direction) (step tick : ℕ)
            → MeansFrame self.now (Invented a d step tick) → result ≡ Some (Invented a d step tick) }
    {
        let label = self.label.meaning()?;
        let direction = direction_of(self.direction)?;
        if self.joined != 0 {
            return None;
        }
        Some(Frame::Invented {
            label,
            direction,
            step: self.step,
            tick: self.tick,
        })
    }

    /// The end of invention, where they mean it.
    fn gone(&self) -> Option<Frame>
        requires kind { self.now.kind ≡ 3 }
        requires zero { self.now.zero ≡ 0 }
        ensures means { IfSome result (MeansFrame self.now) }
        ensures only { (tick : ℕ) → MeansFrame self.now (Gone tick) → result ≡ Some (Gone tick) }
    {
        if self.direction == 0 && self.joined == 0 && self.step == 0 && self.label.is_none() {
            Some(Frame::Gone { tick: self.tick })
        } else {
            None
        }
    }
}

/// The frame in numbers.
pub(crate) fn c_frame(frame: &Frame) -> TcFrame
    ensures { result ≡ c_frame frame.now }
{
    match frame {
        Frame::Heard {
            label,
            direction,
            joined,
            tick,
        } => TcFrame {
            kind: 1,
            direction: u32::from(direction_number(*direction)),
            joined: u32::from(*joined),
            step: 0,
            label: TcLabel::numbers_of(label),
            zero: 0,
            tick: *tick,
        },
        Frame::Invented {
            label,
            direction,
            step,
            tick,
        } => TcFrame {
            kind: 2,
            direction: u32::from(direction_number(*direction)),
            joined: 0,
            step: *step,
            label: TcLabel::numbers_of(label),
            zero: 0,
            tick: *tick,
        },
        Frame::Gone { tick } => TcFrame {
            kind: 3,
            direction: 0,
            joined: 0,
            step: 0,
            label: no_label(),
            zero: 0,
            tick: *tick,
        },
    }
}
