//! The writer of the messages. Read next: `half`.
ghost use Rattle.std.specs.Prelude.{◌≡◌, ◌≤◌, IfSome, List, [], ◌∷◌, ◌++◌, Option, None, Some, true, false, not, take};
ghost use Rattle.std.specs.Prelude.{drop, length};
ghost use Rattle.tc_address.specs.declared.direction.Direction.{Direction};
ghost use Rattle.flywheel.specs.declared.frame.Frame.{Frame};
ghost use Rattle.quarter_frame.specs.declared.half.Half.TheVariants.{First, Second};
ghost use Rattle.quarter_frame.specs.Message.{full_of};
ghost use Rattle.quarter_frame.specs.Runs.{four_of, is_even, mtc_of};
ghost use Rattle.quarter_frame.specs.StandsFor.{next_half, other_half, position_of, written, StandsFor};

use crate::half::{Half, four_quarters};
use crate::message::full;
use flywheel::Frame;
use std::marker::Model;
use tc_address::{Direction, Label};

/// Writes the messages of one frame after another.
#[derive(Drop)]
pub struct QuarterWriter {
    /// The half of the next frame, if a run is open.
    next: Option<Half>,
}

impl Model for QuarterWriter {
    ghost use Rattle.std.specs.Prelude.{Option};
    ghost use Rattle.quarter_frame.specs.declared.half.Half.{Half};

    ghost Value = { Option Half };

    ghost view = { λ w. w.next };
}

impl QuarterWriter {
    /// A writer that was given no frame.
    pub fn new() -> QuarterWriter
        ensures value { result ≡ None }
        ensures stands { StandsFor result [] }
    {
        QuarterWriter { next: None }
    }

    /// Begins a run.
    fn begin(&mut self, label: &Label, direction: Direction, room: &mut [u8; 18]) -> usize
        ensures count { result ≡ 18 }
        ensures bytes { room.new ≡ full_of label.now ++ four_of label.now direction true }
        ensures next { self.new ≡ Some Second }
    {
        room[..10].copy_from_slice(&full(label));
        room[10..].copy_from_slice(&four_quarters(label, direction, Half::First));
        self.next = Some(Half::Second);
        18
    }

    /// Goes on the open run, or begins one if none is open.
    fn go_on(&mut self, label: &Label, direction: Direction, room: &mut [u8; 18]) -> usize
        ensures none { self.old ≡ None
            → (result ≡ 18) × (room.new ≡ full_of label.now ++ four_of label.now direction true)
            × (self.new ≡ Some Second) }
        ensures some { IfSome self.old (λ half. (result ≡ 8)
            × (room.new ≡ four_of label.now direction (is_even (position_of half)) ++ drop 8 room.old)
            × (self.new ≡ Some (other_half half))) }
    {
        let Some(half) = self.next else {
            return self.begin(label, direction, room);
        };
        room[..8].copy_from_slice(&four_quarters(label, direction, half));
        self.next = Some(half.other());
        8
    }

    /// Writes the messages of the next frame to the front of the room, and answers how many bytes these
    /// are: 18 if the frame begins a run, 8 if it goes on one, and 0 if it is `Gone`.
    pub fn frame(&mut self, frame: &Frame, room: &mut [u8; 18]) -> usize
        ensures bytes { take result room.new ≡ written self.old frame.now }
        ensures count { result ≡ length (written self.old frame.now) }
        ensures most { result ≤ 18 }
        ensures rest { drop result room.new ≡ drop result room.old }
        ensures next { self.new ≡ next_half self.old frame.now }

        // What it means for the frames so far.
        ensures stands { (frames : List Frame) → StandsFor self.old frames
            → StandsFor self.new (frames ++ frame.now ∷ [])
            × (mtc_of (frames ++ frame.now ∷ []) ≡ mtc_of frames ++ take result room.new) }
    {
        match *frame {
            Frame::Heard {
                label,
                direction,
                joined,
                ..
            } => {
                if joined {
                    self.go_on(&label, direction, room)
                } else {
                    self.begin(&label, direction, room)
                }
            }
            Frame::Invented {
                label,
                direction,
                ..
            } => self.go_on(&label, direction, room),
            Frame::Gone { .. } => {
                self.next = None;
                0
            }
        }
    }
}
