//! The line of an event. Read next: `line_text/src/line.rt`.
ghost use Rattle.std.specs.Prelude.{◌≡◌, ◌+◌, ◌<◌, ◌≤◌, ◌^◌, ◌++◌, codes};
ghost use Rattle.arrayvec.specs.ArrayVec.{array_vec_len};
ghost use Rattle.line_text.specs.Line.{direction_name, flag_digit, flags_text, user_text};
ghost use Rattle.tc_address.specs.Spelling.{text_of};
ghost use Rattle.interval_file.specs.IntervalHeader.{IsTickRate};
ghost use Rattle.interval_file.specs.declared.header.IntervalHeader.{IntervalHeader};
ghost use Rattle.direction_reader.specs.declared.event.Event.TheVariants as events;
ghost use Rattle.report_text.specs.Texts.{alone_line, event_line, firm_event_line, speed_of, FitsFirmLine, FitsLine};

use direction_reader::{Event, FirmEvent};
use interval_file::IntervalHeader;
use line_text::{
    Text, direction_name, push_bytes, push_count, push_flag, push_flags, push_hexadecimal,
    push_ticks,
};
use ltc_word::LtcWord;
use tc_address::{Direction, rate, text};
use tc_bits::FieldFault;

/// The line of an event, for a recording with this header.
pub fn event_text(event: &Event, header: &IntervalHeader) -> Text
    requires event { FitsLine event.now }
    requires header { IsTickRate header.now.tick_rate }
    ensures { result.items ≡ event_line header.now event.now }
{
    match *event {
        Event::Word {
            direction,
            word,
            tick,
            length,
        } => word_text(direction, &word, tick, length, header),
        Event::Refused {
            direction,
            fault,
            tick,
        } => refused_text(direction, fault, tick),
        Event::Lost { interval, tick } => lost_text(interval, tick),
    }
}

/// The line of an event when each word needs a witness, for a recording with this header.
pub fn firm_event_text(event: &FirmEvent, header: &IntervalHeader) -> Text
    requires event { FitsFirmLine event.now }
    requires header { IsTickRate header.now.tick_rate }
    ensures { result.items ≡ firm_event_line header.now event.now }
{
    match event {
        FirmEvent::Told(event) => event_text(event, header),
        FirmEvent::Alone {
            direction,
            tick,
            ..
        } => alone_text(*direction, *tick),
    }
}

fn word_text(
    direction: Direction,
    word: &LtcWord,
    tick: u64,
    length: u64,
    header: &IntervalHeader,
) -> Text
    requires tick { tick < 2 ^ 60 }
    requires some { 1 ≤ length }
    requires length { length < 2 ^ 32 }
    requires header { IsTickRate header.now.tick_rate }
    ensures { result.items ≡ event_line header.now (events.Word direction word.now tick length) }
{
    let mut line = Text::new();
    push_word(&mut line, direction, word);
    push_bytes(&mut line, b" tick ");
    push_ticks(&mut line, tick);
    push_bytes(&mut line, b" length ");
    push_count(&mut line, length);
    push_bytes(&mut line, b" speed ");
    push_count(&mut line, speed(header, length));
    push_bytes(&mut line, b"\n");
    line
}

/// Appends what the word itself says: its way, its fields, and whether it is balanced.
fn push_word(line: &mut Text, direction: Direction, word: &LtcWord)
    requires { array_vec_len line.old + 61 ≤ 128 }
    ensures items { line.new.items ≡ line.old.items ++ codes "word " ++ direction_name direction ++ codes " "
        ++ text_of word.now.fields.label ++ codes " user " ++ user_text word.now.fields.user
        ++ codes " flags " ++ flags_text word.now.fields.flags ++ codes " balance " ++ flag_digit word.now.balanced }
    ensures len { array_vec_len line.new ≤ array_vec_len line.old + 61 }
{
    push_bytes(line, b"word ");
    push_bytes(line, direction_name(direction).as_bytes());
    push_bytes(line, b" ");
    push_bytes(line, &text(&word.fields.label()));
    push_bytes(line, b" user ");
    push_hexadecimal(line, word.fields.user().groups());
    push_bytes(line, b" flags ");
    push_flags(line, word.fields.flags());
    push_bytes(line, b" balance ");
    push_flag(line, word.balanced);
}

fn refused_text(direction: Direction, fault: FieldFault, tick: u64) -> Text
    requires { tick < 2 ^ 60 }
    ensures { (header : IntervalHeader) → result.items ≡ event_line header (events.Refused direction fault tick) }
{
    let mut line = Text::new();
    push_bytes(&mut line, b"refused ");
    push_bytes(&mut line, direction_name(direction).as_bytes());
    push_bytes(&mut line, b" ");
    push_bytes(&mut line, fault.name().as_bytes());
    push_bytes(&mut line, b" tick ");
    push_ticks(&mut line, tick);
    push_bytes(&mut line, b"\n");
    line
}

fn alone_text(direction: Direction, tick: u64) -> Text
    requires { tick < 2 ^ 60 }
    ensures { result.items ≡ alone_line direction tick }
{
    let mut line = Text::new();
    push_bytes(&mut line, b"refused ");
    push_bytes(&mut line, direction_name(direction).as_bytes());
    push_bytes(&mut line, b" alone tick ");
    push_ticks(&mut line, tick);
    push_bytes(&mut line, b"\n");
    line
}

fn lost_text(interval: u64, tick: u64) -> Text
    requires interval { interval < 2 ^ 40 }
    requires tick { tick < 2 ^ 60 }
    ensures { (header : IntervalHeader) → result.items ≡ event_line header (events.Lost interval tick) }
{
    let mut line = Text::new();
    push_bytes(&mut line, b"lost interval ");
    push_count(&mut line, interval);
    push_bytes(&mut line, b" tick ");
    push_ticks(&mut line, tick);
    push_bytes(&mut line, b"\n");
    line
}

/// The speed of a word in thousandths of nominal, rounded down: a word of nominal speed lasts one
/// frame of the system.
fn speed(header: &IntervalHeader, length: u64) -> u64
    requires some { 1 ≤ length }
    requires length { length < 2 ^ 32 }
    requires header { IsTickRate header.now.tick_rate }
    ensures value { result ≡ speed_of header.now length }
    ensures short { result < 2 ^ 37 }
{
    1000 * u64::from(header.tick_rate) / (u64::from(rate(header.system)) * length)
}
