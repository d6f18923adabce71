//! The message that is on its way. Read next: `row`, with a message that is complete.
ghost use Rattle.std.specs.Prelude.{◌≡◌, ◌<◌, ◌≤◌, ◌++◌, ℕ, List, [], ◌∷◌};
ghost use Rattle.mtc_reader.specs.Messages.{current_in, completed_by, full_in};
ghost use Rattle.mtc_reader.specs.StandsFor.{Keeps, first_nine};

use crate::message::{Message, MessageKind, kind_of};
use arrayvec::ArrayVec;

/// The end of a system exclusive message.
const END: u8 = 0xf7;

/// Bytes below this one are data bytes.
pub(crate) const STATUS: u8 = 0x80;

/// What the message on its way may still become: a quarter frame, which needs its first data byte, a full
/// message, or nothing more. Of the data bytes of a full message nine are kept, one more than it has.
#[derive(Drop)]
pub struct CurrentMessage {
    kind: MessageKind,
    numbers: ArrayVec<u8, 9>,
}

impl CurrentMessage {
    /// Before the first byte.
    pub fn new() -> CurrentMessage
        ensures { Keeps result [] }
    {
        CurrentMessage {
            kind: MessageKind::Other,
            numbers: ArrayVec::new(),
        }
    }

    /// Takes a byte that is no real-time byte, and answers the message that it completes.
    #[inline(always)]
    pub fn take(&mut self, byte: u8) -> Option<Message>
        ensures keeps { (before : List ℕ) → Keeps self.old before → Keeps self.new (byte ∷ before) }
        ensures completes { (before : List ℕ) → Keeps self.old before → result ≡ completed_by byte (current_in before) }
    {
        if byte < STATUS {
            self.number(byte)
        } else {
            self.status(byte)
        }
    }

    /// Takes the two bytes of a quarter frame.
    #[inline(always)]
    pub fn pass(&mut self)
        ensures { (before : List ℕ) (number : ℕ) → number < 0x80 → Keeps self.new (number ∷ 0xf1 ∷ before) }
    {
        self.kind = MessageKind::Other;
    }

    /// Takes a data byte.
    #[inline(always)]
    fn number(&mut self, number: u8) -> Option<Message>
        requires { number < 0x80 }
        ensures keeps { (before : List ℕ) → Keeps self.old before → Keeps self.new (number ∷ before) }
        ensures completes { (before : List ℕ) → Keeps self.old before
            → result ≡ completed_by number (current_in before) }
    {
        match self.kind {
            MessageKind::Quarter => {
                self.kind = MessageKind::Other;
                Some(Message::QuarterFrame(number))
            }
            MessageKind::Exclusive => {
                self.add(number);
                None
            }
            MessageKind::Other => None,
        }
    }

    /// Takes a status byte.
    #[inline(always)]
    fn status(&mut self, status: u8) -> Option<Message>
        requires { 0x80 ≤ status }
        ensures keeps { (before : List ℕ) → Keeps self.old before → Keeps self.new (status ∷ before) }
        ensures completes { (before : List ℕ) → Keeps self.old before
            → result ≡ completed_by status (current_in before) }
    {
        let completed = match self.kind {
            MessageKind::Exclusive if status == END => self.full_message(),
            _ => None,
        };
        self.kind = kind_of(status);
        if let MessageKind::Exclusive = self.kind {
            self.numbers.clear();
        }
        completed
    }

    /// The full message that the data bytes are.
    fn full_message(&self) -> Option<Message>
        ensures { result ≡ full_in self.now.numbers.items }
    {
        let [realtime, _, first, second, hours, minutes, seconds, frames] = self.numbers.as_slice()
        else {
            return None;
        };
        if *realtime == 0x7f && *first == 1 && *second == 1 {
            Some(Message::FullMessage {
                hours: *hours,
                minutes: *minutes,
                seconds: *seconds,
                frames: *frames,
            })
        } else {
            None
        }
    }

    /// Adds a data byte.
    fn add(&mut self, byte: u8)
        ensures kind { self.new.kind ≡ self.old.kind }
        ensures kept { (numbers : List ℕ) → self.old.numbers.items ≡ first_nine numbers
            → self.new.numbers.items ≡ first_nine (numbers ++ byte ∷ []) }
    {
        if !self.numbers.is_full() {
            self.numbers.push(byte);
        }
    }
}
