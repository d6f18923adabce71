//! An event in numbers. Read next: `told`.
ghost use Rattle.std.specs.Prelude.{◌≡◌, ◌≤◌};
ghost use Rattle.tc_c.specs.CEvent.{c_event, c_refused, c_word, count_number, direction_number, fault_number};
ghost use Rattle.tc_c.specs.CEvent.{flag_bits};

use direction_reader::Event;
use ltc_word::LtcWord;
use tc_address::{Count, Direction};
use tc_bits::{FieldFault, Flags};

/// An event in numbers. Those that say nothing of it are 0.
#[repr(C)]
#[derive(Clone, Copy)]
pub struct TcEvent {
    /// 1 a word, 2 a refused one, 3 a break.
    pub kind: u8,
    /// 0 forward, 1 backward.
    pub direction: u8,
    /// Of a word its count: 0 for 24, 1 for 25, 2 for 30, 3 for 30 drop-frame. Of a refused one its fault,
    /// from 1 to 9, or 12 where it has no witness.
    pub detail: u8,
    /// Of a word, bit 0 first: bit 10, colour framing, the three binary group flags, and the balance.
    pub flags: u8,
    pub hours: u8,
    pub minutes: u8,
    pub seconds: u8,
    pub frames: u8,
    /// Of a word its user bits, group 1 as the least significant.
    pub user: u32,
    /// 0.
    pub zero: u32,
    /// The tick at which it ends, from the first sample.
    pub tick: u64,
    /// Of a word the ticks of its 80 cells, of a break the place of its interval.
    pub length: u64,
}

/// The event in numbers.
pub(crate) fn c_event(event: &Event) -> TcEvent
    ensures { result ≡ c_event event.now }
{
    match *event {
        Event::Word {
            direction,
            word,
            tick,
            length,
        } => c_word(direction, &word, tick, length),
        Event::Refused {
            direction,
            fault,
            tick,
        } => refused(direction, fault_number(fault), tick),
        Event::Lost { interval, tick } => TcEvent {
            kind: 3,
            direction: 0,
            detail: 0,
            flags: 0,
            hours: 0,
            minutes: 0,
            seconds: 0,
            frames: 0,
            user: 0,
            zero: 0,
            tick,
            length: interval,
        },
    }
}

/// A refused word in numbers.
pub(crate) fn refused(direction: Direction, detail: u8, tick: u64) -> TcEvent
    ensures { result ≡ c_refused direction detail tick }
{
    TcEvent {
        kind: 2,
        direction: direction_number(direction),
        detail,
        flags: 0,
        hours: 0,
        minutes: 0,
        seconds: 0,
        frames: 0,
        user: 0,
        zero: 0,
        tick,
        length: 0,
    }
}

/// A word in numbers.
fn c_word(direction: Direction, word: &LtcWord, tick: u64, length: u64) -> TcEvent
    ensures { result ≡ c_word direction word.now tick length }
{
    let label = word.fields.label();
    TcEvent {
        kind: 1,
        direction: direction_number(direction),
        detail: count_number(label.count()),
        flags: flag_bits(word.fields.flags(), word.balanced),
        hours: label.hours() as u8,
        minutes: label.minutes() as u8,
        seconds: label.seconds() as u8,
        frames: label.frames() as u8,
        user: word.fields.user().groups(),
        zero: 0,
        tick,
        length,
    }
}

pub(crate) fn flag_bits(flags: Flags, balanced: bool) -> u8
    ensures { result ≡ flag_bits flags balanced }
{
    u8::from(flags.drop_frame)
        + 2 * u8::from(flags.colour_frame)
        + 4 * u8::from(flags.group_flag_zero)
        + 8 * u8::from(flags.group_flag_one)
        + 16 * u8::from(flags.group_flag_two)
        + 32 * u8::from(balanced)
}

pub(crate) fn direction_number(direction: Direction) -> u8
    ensures { result ≡ direction_number direction }
{
    match direction {
        Direction::Forward => 0,
        Direction::Backward => 1,
    }
}

pub(crate) fn count_number(count: Count) -> u8
    ensures { result ≡ count_number count }
{
    match count {
        Count::C24 => 0,
        Count::C25 => 1,
        Count::C30 => 2,
        Count::Drop30 => 3,
    }
}

pub(crate) fn fault_number(fault: FieldFault) -> u8
    ensures value { result ≡ fault_number fault }
    ensures some { 1 ≤ result }
{
    match fault {
        FieldFault::FrameUnits => 1,
        FieldFault::Frames => 2,
        FieldFault::SecondUnits => 3,
        FieldFault::SecondTens => 4,
        FieldFault::MinuteUnits => 5,
        FieldFault::MinuteTens => 6,
        FieldFault::HourUnits => 7,
        FieldFault::Hours => 8,
        FieldFault::DroppedLabel => 9,
    }
}
