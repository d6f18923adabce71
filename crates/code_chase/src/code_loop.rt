//! The chase, a frame a step. Read next: `chase_core/src/chase.rt`.
ghost use Rattle.std.specs.Prelude.{◌≡◌, ◌<◌, ◌≤◌};
ghost use Rattle.transport_model.specs.Move.{day_of};
ghost use Rattle.code_chase.specs.CodeTrace.{after_frame, begun_at, next_line};

use crate::master::master_of;
use crate::slip::slip_of;
use chase_core::{ClosedLoop, Command, StepReport};
use flywheel::Frame;
use generator::Generator;
use std::marker::Model;
use tc_address::{Count, Label};

/// A chase that follows the frames of a recording.
#[derive(Drop)]
pub struct CodeChase {
    place: ClosedLoop,
    count: Count,
    has_begun: bool,
    generator: Generator,
    bound: u32,
}

impl Model for CodeChase {
    ghost use Rattle.std.specs.Prelude.{◌≡◌, ◌<◌, ◌≤◌, cond, Some, None};
    ghost use Rattle.chase_core.specs.declared.command.Command.TheVariants.{Play};
    ghost use Rattle.code_chase.specs.CodeTrace.{CodeLoop};
    ghost use Rattle.transport_model.specs.Move.{day_of};

    ghost Value = { CodeLoop };

    ghost view = { λ c. record {
      loop = c.place;
      command = cond c.has_begun None (Some Play);
      state = c.generator;
      bound = c.bound;
    } };

    ghost invariant = { λ c. (c.place.chase.count ≡ c.count) × (c.bound ≤ 1_000)
        × (c.place.position < day_of c.place.chase.count) };
}

impl CodeChase {
    /// A chase that waits, with its transport at the first subframe of a label. The seed begins the
    /// generator of the slips, which are at most `bound` subframes either way.
    pub fn new(label: &Label, seed: u64, bound: u32) -> CodeChase
        requires { bound ≤ 1_000 }
        ensures { result ≡ begun_at label.now seed bound }
    {
        CodeChase {
            place: ClosedLoop::new(label),
            count: label.count(),
            has_begun: false,
            generator: Generator::new(seed),
            bound,
        }
    }

    /// Works the next frame: one step of the chase, and one move of the transport. The first step plays.
    pub fn frame(&mut self, frame: &Frame) -> StepReport
        ensures report { result ≡ (next_line self.old frame.now).report }
        ensures next { self.new ≡ after_frame self.old frame.now }
    {
        let command = if self.has_begun {
            None
        } else {
            Some(Command::Play)
        };
        self.has_begun = true;
        let master = master_of(self.count, frame);
        let slip = slip_of(self.bound, self.generator.draw());
        self.place.work(command, master, slip)
    }

    /// The position of the transport, in subframes.
    pub fn position(&self) -> u32
        ensures value { result ≡ self.now.loop.position }
        ensures day { result < day_of self.now.loop.chase.count }
    {
        self.place.position()
    }
}
