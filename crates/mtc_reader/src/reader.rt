//! From bytes to events, one byte at a time. Read next: `current`, with a byte that is no real-time byte.
ghost use Rattle.std.specs.Prelude.{◌≡◌, ◌<◌, ◌≤◌, ◌+◌, ◌^◌, ◌++◌, ℕ, List, [], ◌∷◌, None, true, false, length};
ghost use Rattle.std.specs.Prelude.{take, IfSome};
ghost use Rattle.mtc_reader.specs.Events.{events_in};
ghost use Rattle.mtc_reader.specs.StandsFor.{events_of, IsCompleteWith, StandsFor};

use crate::address::quarter;
use crate::current::{CurrentMessage, STATUS};
use crate::eight::EightQuarters;
use crate::event::MtcEvent;
use crate::row::Row;
use tc_address::Direction;

/// Bytes from this one on are system real-time bytes.
const REAL_TIME: u8 = 0xf8;

/// The status byte of a quarter frame.
const QUARTER_FRAME: u8 = 0xf1;

/// Reads the labels of MIDI Time Code, one byte at a time.
#[derive(Drop)]
pub struct MtcReader {
    /// How many bytes were taken.
    bytes: u64,
    message: CurrentMessage,
    row: Row,
}

impl MtcReader {
    /// A reader that was given no byte.
    pub fn new() -> MtcReader
        ensures count { result.bytes ≡ 0 }
        ensures stands { StandsFor result [] }
    {
        MtcReader {
            bytes: 0,
            message: CurrentMessage::new(),
            row: Row::new(),
        }
    }

    /// How many bytes were taken.
    pub fn bytes(&self) -> u64
        ensures { result ≡ self.now.bytes }
    {
        self.bytes
    }

    /// Takes the next byte, and answers the event that is complete with it.
    #[inline(always)]
    pub fn byte(&mut self, byte: u8) -> Option<MtcEvent>
        requires { self.old.bytes < 2 ^ 62 }
        ensures count { self.new.bytes ≡ self.old.bytes + 1 }
        ensures stands { (bytes : List ℕ) → StandsFor self.old bytes → StandsFor self.new (bytes ++ byte ∷ []) }
        ensures gives { (bytes : List ℕ) → StandsFor self.old bytes
            → events_in (bytes ++ byte ∷ []) ≡ events_in bytes ++ events_of result }
        ensures place { IsCompleteWith self.new.bytes result }
    {
        let place = self.bytes;
        self.bytes = place + 1;
        if byte >= REAL_TIME {
            return None;
        }
        match self.message.take(byte) {
            Some(message) => self.row.take(message, place),
            None => None,
        }
    }

    /// Takes bytes up to the one with which an event is complete, and all of them if none is: the same as
    /// one by one, and quicker. It answers how many these are, and the event.
    pub fn take(&mut self, bytes: &[u8]) -> (usize, Option<MtcEvent>)
        requires { self.old.bytes + length bytes.now ≤ 2 ^ 62 }
        ensures some { 0 < length bytes.now → 1 ≤ result.0 }
        ensures most { result.0 ≤ length bytes.now }
        ensures all { result.1 ≡ None → result.0 ≡ length bytes.now }
        ensures count { self.new.bytes ≡ self.old.bytes + result.0 }
        ensures stands { (front : List ℕ) → StandsFor self.old front
            → StandsFor self.new (front ++ take result.0 bytes.now) }
        ensures gives { (front : List ℕ) → StandsFor self.old front
            → events_in (front ++ take result.0 bytes.now) ≡ events_in front ++ events_of result.1 }
        ensures place { IsCompleteWith self.new.bytes result.1 }
    {
        if let Some(event) = self.window(bytes) {
            return (16, Some(event));
        }
        let mut at = 0;
        'bytes: while at < bytes.len() {
            at += self.passed(&bytes[at..]);
            if at == bytes.len() {
                return (at, None);
            }
            let (count, event) = self.next(&bytes[at..]);
            at += count;
            if event.is_some() {
                return (at, event);
            }
        }
        (at, None)
    }

    /// Takes the eight quarter frames in front if their pieces rise, and answers the event that is complete
    /// with them. If the first of them may end eight others, it takes nothing.
    #[inline(always)]
    fn window(&mut self, bytes: &[u8]) -> Option<MtcEvent>
        requires { self.old.bytes + length bytes.now ≤ 2 ^ 62 }
        ensures some { IfSome result (λ event. 16 ≤ length bytes.now) }
        ensures count { IfSome result (λ event. self.new.bytes ≡ self.old.bytes + 16) }
        ensures takes { IfSome result (λ event. (front : List ℕ) → StandsFor self.old front
            → StandsFor self.new (front ++ take 16 bytes.now)
            × (events_in (front ++ take 16 bytes.now) ≡ events_in front ++ event ∷ [])) }
        ensures place { IsCompleteWith self.new.bytes result }
        ensures stays { result ≡ None → self.new ≡ self.old }
    {
        let Some(eight) = EightQuarters::rising(bytes) else {
            return None;
        };
        if !self.row.pass_window(eight) {
            return None;
        }
        let place = self.bytes + 15;
        self.bytes += 16;
        self.message.pass();
        Some(quarter(Direction::Forward, &eight.numbers(), place))
    }

    /// Takes the first byte, or both bytes of a quarter frame, and answers how many these are, and the event
    /// that is complete with them.
    #[inline(always)]
    fn next(&mut self, bytes: &[u8]) -> (usize, Option<MtcEvent>)
        requires some { 0 < length bytes.now }
        requires within { self.old.bytes + length bytes.now ≤ 2 ^ 62 }
        ensures least { 1 ≤ result.0 }
        ensures most { result.0 ≤ length bytes.now }
        ensures count { self.new.bytes ≡ self.old.bytes + result.0 }
        ensures stands { (front : List ℕ) → StandsFor self.old front
            → StandsFor self.new (front ++ take result.0 bytes.now) }
        ensures gives { (front : List ℕ) → StandsFor self.old front
            → events_in (front ++ take result.0 bytes.now) ≡ events_in front ++ events_of result.1 }
        ensures place { IsCompleteWith self.new.bytes result.1 }
    {
        match bytes {
            [QUARTER_FRAME, number, ..] => (2, self.both(*number)),
            _ => (1, self.byte(bytes[0])),
        }
    }

    /// Takes the status byte of a quarter frame and the byte behind it.
    #[inline(always)]
    fn both(&mut self, number: u8) -> Option<MtcEvent>
        requires { self.old.bytes + 2 ≤ 2 ^ 62 }
        ensures count { self.new.bytes ≡ self.old.bytes + 2 }
        ensures stands { (front : List ℕ) → StandsFor self.old front
            → StandsFor self.new (front ++ 0xf1 ∷ number ∷ []) }
        ensures gives { (front : List ℕ) → StandsFor self.old front
            → events_in (front ++ 0xf1 ∷ number ∷ []) ≡ events_in front ++ events_of result }
        ensures place { IsCompleteWith self.new.bytes result }
    {
        let _none = self.byte(QUARTER_FRAME);
        self.byte(number)
    }

    /// Takes the quarter frames in front with which no event is complete, and answers how many bytes these
    /// are.
    fn passed(&mut self, bytes: &[u8]) -> usize
        requires { self.old.bytes + length bytes.now ≤ 2 ^ 62 }
        ensures most { result ≤ length bytes.now }
        ensures count { self.new.bytes ≡ self.old.bytes + result }
        ensures stands { (front : List ℕ) → StandsFor self.old front
            → StandsFor self.new (front ++ take result bytes.now) }
        ensures none { (front : List ℕ) → StandsFor self.old front
            → events_in (front ++ take result bytes.now) ≡ events_in front }
    {
        let mut at = 0;
        'bytes: while 2 <= bytes.len() - at {
            if !self.pass(bytes[at], bytes[at + 1]) {
                return at;
            }
            at += 2;
        }
        at
    }

    /// Takes two bytes if they are a quarter frame and no event is complete with it, and answers whether it
    /// took them.
    #[inline(always)]
    fn pass(&mut self, status: u8, number: u8) -> bool
        requires { self.old.bytes + 2 ≤ 2 ^ 62 }
        ensures count { result ≡ true → self.new.bytes ≡ self.old.bytes + 2 }
        ensures stays { result ≡ false → self.new ≡ self.old }
        ensures stands { result ≡ true → (front : List ℕ) → StandsFor self.old front
            → StandsFor self.new (front ++ status ∷ number ∷ []) }
        ensures none { result ≡ true → (front : List ℕ) → StandsFor self.old front
            → events_in (front ++ status ∷ number ∷ []) ≡ events_in front }
    {
        status == QUARTER_FRAME && number < STATUS && self.quarter_frame(number)
    }

    /// Takes both bytes of a quarter frame if no event is complete with it, and answers whether it took
    /// them.
    #[inline(always)]
    fn quarter_frame(&mut self, number: u8) -> bool
        requires data { number < 0x80 }
        requires within { self.old.bytes + 2 ≤ 2 ^ 62 }
        ensures count { result ≡ true → self.new.bytes ≡ self.old.bytes + 2 }
        ensures stays { result ≡ false → self.new ≡ self.old }
        ensures stands { result ≡ true → (front : List ℕ) → StandsFor self.old front
            → StandsFor self.new (front ++ 0xf1 ∷ number ∷ []) }
        ensures none { result ≡ true → (front : List ℕ) → StandsFor self.old front
            → events_in (front ++ 0xf1 ∷ number ∷ []) ≡ events_in front }
    {
        let passed = self.row.pass(number);
        if passed {
            self.bytes += 2;
            self.message.pass();
        }
        passed
    }
}
