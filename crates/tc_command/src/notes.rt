//! The notes: one line for each status but Done. Read next: `tc_io/src/sink.rt`.
ghost use Rattle.std.specs.Prelude.{◌≡◌, ◌++◌, ◌+◌, ◌≤◌, ◌<◌, ◌^◌, length, codes, decimal};
ghost use Rattle.std.specs.Io.KnownBytes.{Appends};
ghost use Rattle.tc_io.specs.Source.{Rose};
ghost use Rattle.tc_io.specs.Sink.{AppendsFront};
ghost use Rattle.tc_command.specs.InputFault.{at_byte, at_column};
ghost use Rattle.tc_command.specs.Notes.{usage_note, stop_note};

use crate::input_fault::InputFault;
use crate::stop::Stop;
use line_text::{Text, push_any_number, push_bytes};
use tc_io::{Sink, push_all};
use tc_job::WordsFault;

/// Pushes a note. A sink of notes that fails changes nothing else.
pub fn push_note<N: Sink>(notes: &mut N, note: &Text)
    ensures front { AppendsFront (N.written notes.old) (N.written notes.new) note.now.items }
    ensures all { ¬ Rose (N.faults notes.old) (N.faults notes.new)
        → Appends (N.written notes.old) (N.written notes.new) note.now.items }
{
    let _pushed = push_all(notes, note);
}

/// The note of a job that stopped.
pub fn stop_note(stop: Stop) -> Text
    ensures { result.items ≡ stop_note stop }
{
    match stop {
        Stop::Refused(fault) => refused_note(fault),
        Stop::ReadFault => line_of(b"tc: read fault\n"),
        Stop::WriteFault => line_of(b"tc: write fault\n"),
        Stop::Limit => line_of(b"tc: limit\n"),
    }
}

/// The note of words that name no job, or that there is no memory to read.
pub fn usage_note(fault: WordsFault) -> Text
    ensures { result.items ≡ usage_note fault }
{
    match fault {
        WordsFault::Dash(place) => numbered(b"tc: usage: dash in word ", place as u64),
        WordsFault::Command => line_of(b"tc: usage: command\n"),
        WordsFault::CountOfWords => line_of(b"tc: usage: count of words\n"),
        WordsFault::Value(place) => numbered(b"tc: usage: value of word ", place as u64),
        WordsFault::Memory(_) => line_of(b"tc: out of memory\n"),
    }
}

fn refused_note(fault: InputFault) -> Text
    ensures { result.items ≡ stop_note (Stop.Refused fault) }
{
    match fault {
        InputFault::Intervals(fault) => byte_note(fault.name(), fault.place()),
        InputFault::Lines(fault) => byte_note(fault.name(), fault.place()),
        InputFault::Sound(fault) => byte_note(fault.name(), fault.place()),
        InputFault::HalfSample(place) | InputFault::HalfField(place) => byte_note(
            "truncated",
            place,
        ),
        InputFault::Labels(fault) => column_note(fault.line, fault.column),
    }
}

fn byte_note(name: &str, place: u64) -> Text
    requires { length name.now ≤ 40 }
    ensures { result.items ≡ codes "tc: refused: " ++ at_byte name.now place ++ codes "\n" }
{
    let mut line = line_of(b"tc: refused: ");
    push_bytes(&mut line, name.as_bytes());
    push_bytes(&mut line, b" at byte ");
    push_any_number(&mut line, place);
    push_bytes(&mut line, b"\n");
    line
}

fn column_note(number: u64, column: u64) -> Text
    ensures { result.items ≡ codes "tc: refused: " ++ at_column number column ++ codes "\n" }
{
    let mut line = line_of(b"tc: refused: line ");
    push_any_number(&mut line, number);
    push_bytes(&mut line, b" column ");
    push_any_number(&mut line, column);
    push_bytes(&mut line, b"\n");
    line
}

fn numbered(front: &[u8], number: u64) -> Text
    requires { length front.now ≤ 100 }
    ensures { result.items ≡ front.now ++ decimal number ++ codes "\n" }
{
    let mut line = line_of(front);
    push_any_number(&mut line, number);
    push_bytes(&mut line, b"\n");
    line
}

fn line_of(bytes: &[u8]) -> Text
    requires { length bytes.now ≤ 128 }
    ensures { result.items ≡ bytes.now }
{
    let mut line = Text::new();
    push_bytes(&mut line, bytes);
    line
}
