//! A chase and its transport, which take turns. Read next: `command`.
ghost use Rattle.std.specs.Prelude.{◌≡◌, ◌<◌, IfSome};
ghost use Rattle.tc_address.specs.Numbering.{day_length};
ghost use Rattle.transport_model.specs.Move.{day_of, IsInRange};
ghost use Rattle.chase_core.specs.Step.{IsCommandOf};
ghost use Rattle.chase_core.specs.Trace.{after_row, row_with, starts_at, traced, IsOnTheDay};

use crate::chase::Chase;
use crate::command::{Command, Master};
use crate::report::StepReport;
use std::marker::Model;
use tc_address::{Label, number};
use transport_model::Transport;

/// A chase and the transport that it moves.
#[derive(Drop)]
pub struct ClosedLoop {
    chase: Chase,
    transport: Transport,
}

impl Model for ClosedLoop {
    ghost use Rattle.std.specs.Prelude.{◌≡◌, ◌<◌};
    ghost use Rattle.chase_core.specs.Trace.{Loop};
    ghost use Rattle.transport_model.specs.Move.{day_of};

    ghost Value = { Loop };

    ghost view = { λ s. record { chase = s.chase; position = s.transport.position } };

    ghost invariant = { λ s. (s.transport.count ≡ s.chase.count) × (s.transport.position < day_of s.chase.count) };
}

impl ClosedLoop {
    /// A chase that waits, with its transport at the first subframe of a label.
    pub fn new(label: &Label) -> ClosedLoop
        ensures start { result ≡ starts_at label.now }
        ensures day { IsOnTheDay result }
    {
        let count = label.count();
        ClosedLoop {
            chase: Chase::new(count),
            transport: Transport::new(count, 80 * number(label)),
        }
    }

    /// The position of the transport, in subframes.
    pub fn position(&self) -> u32
        ensures value { result ≡ self.now.position }
        ensures day { IsOnTheDay self.now }
    {
        self.transport.position()
    }

    /// Works a frame: the chase steps, and then the transport moves, and slips `slip` subframes. Gives what the
    /// chase says.
    pub fn work(
        &mut self,
        command: Option<Command>,
        master: Option<Master>,
        slip: i32,
    ) -> StepReport
        requires command { IfSome command (λ c. IsCommandOf self.old.chase.count c) }
        requires master { IfSome master (λ m. m.number < day_length self.old.chase.count) }
        requires slip { IsInRange slip }
        ensures report { result ≡ (traced self.old (row_with command master slip)).report }
        ensures after { self.new ≡ after_row self.old (row_with command master slip) }
        ensures day { self.new.position < day_of self.old.chase.count }
    {
        let report = self.chase.step(command, master, self.transport.position());
        self.transport.apply(report.order, slip);
        report
    }
}
