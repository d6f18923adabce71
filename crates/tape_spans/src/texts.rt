//! The lines of spans and gaps. Read next: `line_text/src/line.rt`.
ghost use Rattle.std.specs.Prelude.{◌≡◌, ◌+◌, ◌≤◌, ◌<◌, ◌^◌, ◌++◌, length, codes, decimal};
ghost use Rattle.arrayvec.specs.ArrayVec.{array_vec_len};
ghost use Rattle.tc_address.specs.Spelling.{text_of};
ghost use Rattle.line_text.specs.Line.{direction_name};
ghost use Rattle.tape_spans.specs.SpanTexts.{gap_line, mean_speed, span_line, spans_end_line};
ghost use Rattle.tape_spans.specs.Tape.{FitsSpan};

use crate::gap::{Gap, Relation};
use crate::span::Span;
use arrayvec::ArrayVec;
use itoa::Buffer;
use line_text::{Text, direction_name, push_bytes, push_count, push_signed, push_ticks};
use tc_address::{System, rate, text};

/// The line of a span, with its newline. What a recording can say fits 128 bytes.
pub type SpanText = ArrayVec<u8, 160>;

/// The line of a span, in a recording of this system with `tick_rate` ticks a second.
pub fn span_text(span: &Span, tick_rate: u32, system: System) -> SpanText
    requires { FitsSpan span.now }
    ensures { result.items ≡ span_line tick_rate system span.now }
{
    let mut line = SpanText::new();
    let labels = labels_text(span);
    let _fits = line.try_extend_from_slice(&labels);
    let ticks = ticks_text(span, mean_speed(span, tick_rate, system));
    let _fits = line.try_extend_from_slice(&ticks);
    line
}

/// What the line says of labels and frames.
fn labels_text(span: &Span) -> Text
    requires { FitsSpan span.now }
    ensures items { result.items ≡ codes "span " ++ direction_name span.now.first.direction ++ codes " "
        ++ text_of span.now.first.label
        ++ codes " " ++ text_of span.now.last.label ++ codes " heard " ++ decimal span.now.heard ++ codes " bridged "
        ++ decimal span.now.bridged }
    ensures len { array_vec_len result ≤ 79 }
{
    let mut line = Text::new();
    push_bytes(&mut line, b"span ");
    push_bytes(&mut line, direction_name(span.first.direction).as_bytes());
    push_bytes(&mut line, b" ");
    push_bytes(&mut line, &text(&span.first.label));
    push_bytes(&mut line, b" ");
    push_bytes(&mut line, &text(&span.last.label));
    push_bytes(&mut line, b" heard ");
    push_count(&mut line, span.heard);
    push_bytes(&mut line, b" bridged ");
    push_count(&mut line, span.bridged);
    line
}

/// What the line says of ticks and speed.
#[tactic(auto, using(crate::proofs::Digits::digits_of_speed))]
fn ticks_text(span: &Span, speed: u128) -> Text
    requires fits { FitsSpan span.now }
    requires speed { speed < 10 ^ 25 }
    ensures items { result.items ≡ codes " tick " ++ decimal span.now.first.tick ++ codes " "
        ++ decimal span.now.last.tick
        ++ codes " speed " ++ decimal speed ++ codes "\n" }
    ensures len { array_vec_len result ≤ 78 }
{
    let mut line = Text::new();
    push_bytes(&mut line, b" tick ");
    push_ticks(&mut line, span.first.tick);
    push_bytes(&mut line, b" ");
    push_ticks(&mut line, span.last.tick);
    push_bytes(&mut line, b" speed ");
    let mut digits = Buffer::new();
    push_bytes(&mut line, digits.format(speed).as_bytes());
    push_bytes(&mut line, b"\n");
    line
}

/// The mean speed in thousandths of nominal, rounded down; 0 if the span lasts no tick.
fn mean_speed(span: &Span, tick_rate: u32, system: System) -> u128
    requires { FitsSpan span.now }
    ensures value { result ≡ mean_speed tick_rate system span.now }
    ensures most { result < 10 ^ 25 }
{
    let ticks = span.last.tick.saturating_sub(span.first.tick);
    if ticks == 0 {
        return 0;
    }
    let frames = (span.heard + span.bridged).saturating_sub(1);
    let thousandths = 1000 * u128::from(tick_rate) * u128::from(frames);
    thousandths / (u128::from(rate(system)) * u128::from(ticks))
}

/// The line of a gap.
pub fn gap_text(gap: &Gap) -> Text
    requires { gap.now.ticks < 2 ^ 60 }
    ensures { result.items ≡ gap_line gap.now }
{
    let mut line = Text::new();
    push_bytes(&mut line, b"gap ticks ");
    push_ticks(&mut line, gap.ticks);
    match gap.relation {
        Relation::Count => push_bytes(&mut line, b" count"),
        Relation::Turn => push_bytes(&mut line, b" turn"),
        Relation::Step(labels) => {
            push_bytes(&mut line, b" step ");
            push_signed(&mut line, labels);
        }
    }
    push_bytes(&mut line, b"\n");
    line
}

/// The last line: the numbers of intervals, of spans, and of heard and bridged frames, and the sum of
/// the intervals in ticks.
pub fn spans_end_text(intervals: u64, spans: u64, heard: u64, bridged: u64, ticks: u64) -> Text
    requires intervals { intervals < 2 ^ 40 }
    requires spans { spans < 2 ^ 40 }
    requires heard { heard < 2 ^ 40 }
    requires bridged { bridged < 2 ^ 40 }
    requires ticks { ticks < 2 ^ 60 }
    ensures { result.items ≡ spans_end_line intervals spans heard bridged ticks }
{
    let mut line = Text::new();
    push_bytes(&mut line, b"end intervals ");
    push_count(&mut line, intervals);
    push_bytes(&mut line, b" spans ");
    push_count(&mut line, spans);
    push_bytes(&mut line, b" heard ");
    push_count(&mut line, heard);
    push_bytes(&mut line, b" bridged ");
    push_count(&mut line, bridged);
    push_bytes(&mut line, b" ticks ");
    push_ticks(&mut line, ticks);
    push_bytes(&mut line, b"\n");
    line
}
