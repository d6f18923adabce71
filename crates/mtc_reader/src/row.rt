//! The row of quarter frames that goes on (`eight`). Read next: `address`, with eight of them.
ghost use Rattle.std.specs.Prelude.{◌≡◌, ℕ, ◌+◌, List, [], ◌∷◌, None, true, false, not, bytes_eq, map};
ghost use Rattle.std.specs.Prelude.{reverse, slice_index};
ghost use Rattle.mtc_reader.specs.declared.message.Message.{Message};
ghost use Rattle.mtc_reader.specs.declared.message.Message.TheVariants.{QuarterFrame};
ghost use Rattle.mtc_reader.specs.Events.{event_of, latest_eight, piece_of, pieces, window_event};
ghost use Rattle.mtc_reader.specs.StandsFor.{eight_in, may_end, IsCompleteWith, KeepsRow};

use crate::address::{full, quarter};
use crate::eight::EightQuarters;
use crate::event::MtcEvent;
use crate::message::Message;
use tc_address::Direction;

/// The latest eight quarter frames since the last full message.
#[derive(Drop)]
pub struct Row {
    latest: EightQuarters,
}

impl Row {
    /// Before the first message.
    pub fn new() -> Row
        ensures { KeepsRow result [] }
    {
        Row {
            latest: EightQuarters::none_yet(),
        }
    }

    /// Takes the next message, which is complete at a byte place, and answers what it gives.
    #[inline(always)]
    pub fn take(&mut self, message: Message, place: u64) -> Option<MtcEvent>
        ensures keeps { (before : List Message) → KeepsRow self.old before → KeepsRow self.new (message ∷ before) }
        ensures gives { (before : List Message) → KeepsRow self.old before → result ≡ event_of message before place }
        ensures place { IsCompleteWith (place + 1) result }
    {
        match message {
            Message::QuarterFrame(quarter) => {
                self.latest = self.latest.next(quarter);
                self.event(place)
            }
            Message::FullMessage {
                hours,
                minutes,
                seconds,
                frames,
            } => {
                self.latest = EightQuarters::none_yet();
                Some(full(hours, minutes, seconds, frames, place))
            }
        }
    }

    /// Takes a quarter frame if no eight can end with it, and answers whether it took it.
    #[inline(always)]
    pub fn pass(&mut self, quarter: u8) -> bool
        ensures keeps { result ≡ true → (before : List Message) → KeepsRow self.old before
            → KeepsRow self.new (QuarterFrame quarter ∷ before) }
        ensures none { result ≡ true → (before : List Message) (place : ℕ) → KeepsRow self.old before
            → event_of (QuarterFrame quarter) before place ≡ None }
        ensures stays { result ≡ false → self.new ≡ self.old }
        ensures takes { result ≡ not (may_end (eight_in self.old.latest) quarter) }
    {
        let latest = self.latest.next(quarter);
        if latest.may_carry() {
            return false;
        }
        self.latest = latest;
        true
    }

    /// Takes eight quarter frames if no eight can end with the first of them, and answers whether it took
    /// them.
    #[inline(always)]
    pub fn pass_window(&mut self, eight: EightQuarters) -> bool
        ensures latest { result ≡ true → self.new.latest ≡ eight }
        ensures none { result ≡ true → (before : List Message) (place : ℕ) → KeepsRow self.old before
            → event_of (QuarterFrame (slice_index (eight_in eight) 0)) before place ≡ None }
        ensures stays { result ≡ false → self.new ≡ self.old }
        ensures takes { result ≡ not (may_end (eight_in self.old.latest) (slice_index (eight_in eight) 0)) }
    {
        if !self.pass(eight.numbers()[0]) {
            return false;
        }
        self.latest = eight;
        true
    }

    /// What the latest eight quarter frames carry.
    #[inline(always)]
    fn event(&self, place: u64) -> Option<MtcEvent>
        ensures { result ≡ window_event (eight_in self.now.latest) place }
    {
        if self.latest.may_carry() {
            carried_by(self.latest, place)
        } else {
            None
        }
    }
}

/// What eight quarter frames carry.
#[inline(never)]
fn carried_by(latest: EightQuarters, place: u64) -> Option<MtcEvent>
    ensures { result ≡ window_event (eight_in latest) place }
{
    let window = latest.numbers();
    if is_in_order(&window) {
        return Some(quarter(Direction::Forward, &window, place));
    }
    let turned = reversed(&window);
    if is_in_order(&turned) {
        return Some(quarter(Direction::Backward, &turned, place));
    }
    None
}

/// Whether the quarter frames have the pieces 0 to 7 in this order.
#[inline(always)]
fn is_in_order(window: &[u8; 8]) -> bool
    ensures { result ≡ bytes_eq (map piece_of window.now) pieces }
{
    let [a, b, c, d, e, f, g, h] = *window;
    a / 16 == 0
        && b / 16 == 1
        && c / 16 == 2
        && d / 16 == 3
        && e / 16 == 4
        && f / 16 == 5
        && g / 16 == 6
        && h / 16 == 7
}

/// The last one first.
fn reversed(window: &[u8; 8]) -> [u8; 8]
    ensures { result ≡ reverse window.now }
{
    let [a, b, c, d, e, f, g, h] = *window;
    [h, g, f, e, d, c, b, a]
}
