//! `vitc-make`: a line file made of labels. Read next: `vitc_line/src/writing.rt`.
ghost use Rattle.std.specs.Prelude.{◌≡◌, ◌+◌, ◌*◌, ◌<◌, ◌≤◌, ◌++◌, length, None};
ghost use Rattle.std.specs.List.{flat_map};
ghost use Rattle.arrayvec.specs.ArrayVec.{array_vec_len};
ghost use Rattle.byteorder.specs.Endian.{big_bytes};
ghost use Rattle.line_file.specs.Grammar.{field_bytes, line_bytes};
ghost use Rattle.tc_address.specs.Count.{system_with};
ghost use Rattle.tc_bits.specs.Fields.{IsFields};
ghost use Rattle.made_commands.specs.KeptLines.{frame_bytes, rest_of_lines};
ghost use Rattle.made_commands.specs.MadeLines.{field_lines, field_word, made_lines};
ghost use Rattle.vitc_line.specs.Places.{HasLines};
ghost use Rattle.vitc_line.specs.Spelled.{line_of};
ghost use Rattle.vitc_reader.specs.Runs.{IsLineLength};
ghost use Rattle.vitc_reader.specs.Written.{runs_in};

use crate::laws::lines_that_are_made_are_read_back;
use arrayvec::ArrayVec;
use byteorder::{BigEndian, ByteOrder};
use line_file::{LineHeader, line_header};
use ltc_jam::word_of;
use std::marker::Model;
use tc_address::laws::steps_add_up;
use tc_address::{Label, advance, system_of};
use tc_command::{Command, Maker, PIECE, Piece, Stop, Way};
use tc_io::put_bytes;
use tc_job::LineStripe;
use vitc_line::laws::{each_word_has_its_line, spelling_is_exact};
use vitc_line::{VitcWord, encode};
use vitc_reader::runs_of;

/// The room that a field takes at most: its number of lines, and two lines of 89 runs.
const FIELD_ROOM: usize = 359;

/// The room of the two fields of a frame.
const FRAME_ROOM: usize = 718;

/// The bytes of a line.
type Line = ArrayVec<u8, 179>;

/// `vitc-make`: the line file of a stripe.
#[derive(Clone, Copy)]
pub struct VitcMake {
    pub stripe: LineStripe,
}

impl Command for VitcMake {
    ghost use Rattle.made_commands.specs.MadeLines.{told_vitc_make};

    ghost told = { λ command. told_vitc_make command.stripe };

    fn work<W: Way>(&self, way: &mut W) -> Result<(), Stop> {
        way.make(&mut UnmadeLines::new(&self.stripe))
    }

    fn keeps_its_promise(&self) {
        lines_that_are_made_are_read_back();
        let _frames = self.stripe.frames();
    }

    fn is_lawful() {}
}

/// A line file that is still to be made.
#[derive(Drop)]
struct UnmadeLines {
    header: Option<[u8; 12]>,
    label: Label,
    frames: u32,
    length: u32,
}

impl Model for UnmadeLines {
    ghost use Rattle.made_commands.specs.KeptLines.{Lining, IsLining};

    ghost Value = { Lining };

    ghost view = { λ t. record { header = t.header; label = t.label; frames = t.frames; length = t.length } };

    ghost invariant = { λ t.
        IsLining (record { header = t.header; label = t.label; frames = t.frames; length = t.length }) };
}

impl UnmadeLines {
    /// The whole file of a stripe.
    fn new(stripe: &LineStripe) -> UnmadeLines
        ensures rest { rest_of_lines result ≡ made_lines stripe.now }
    {
        let label = stripe.label();
        let header = LineHeader {
            system: system_of(label.count()),
            length: stripe.length(),
        };
        UnmadeLines {
            header: Some(line_header(&header)),
            label,
            frames: stripe.frames(),
            length: stripe.length(),
        }
    }

    /// Writes the two fields of the next frame, and goes on to the next label.
    fn frame(&mut self, room: &mut Piece)
        requires some { 0 < self.old.frames }
        requires room { array_vec_len room.old + FRAME_ROOM ≤ PIECE }
        ensures rest { room.new.items ++ frame_bytes self.new.length self.new.label self.new.frames
            ≡ room.old.items ++ frame_bytes self.old.length self.old.label self.old.frames }
        ensures frames { self.new.frames + 1 ≡ self.old.frames }
        ensures header { self.new.header ≡ self.old.header }
    {
        steps_add_up();
        push_field(self.length, &field_word(&self.label, false), room);
        push_field(self.length, &field_word(&self.label, true), room);
        self.label = advance(&self.label, 1);
        self.frames -= 1;
    }
}

impl Maker for UnmadeLines {
    ghost use Rattle.made_commands.specs.KeptLines.{pieces_with, rest_of_lines};

    ghost rest = { λ t. rest_of_lines t };

    ghost pieces = { λ t. pieces_with t.header t.frames };

    fn give(&mut self, room: &mut Piece) -> bool {
        if let Some(header) = self.header.take() {
            put_bytes(room, &header);
            return true;
        }
        if self.frames == 0 {
            return false;
        }
        self.frame(room);
        'frames: while 0 < self.frames && room.len() <= PIECE - FRAME_ROOM {
            self.frame(room);
        }
        true
    }
}

/// The word of a label in one of its fields: user bits 0, and no flag except that of drop-frame.
fn field_word(label: &Label, field_mark: bool) -> VitcWord
    ensures value { result ≡ field_word label.now field_mark }
    ensures valid { IsFields result.fields }
{
    VitcWord {
        fields: word_of(label).fields,
        field_mark,
    }
}

/// A field with this word: two equal lines.
fn push_field(length: u32, word: &VitcWord, room: &mut Piece)
    requires lines { HasLines (system_with word.now.fields.label.count) }
    requires length { IsLineLength length }
    requires room { array_vec_len room.old + FIELD_ROOM ≤ PIECE }
    ensures items { room.new.items ≡ room.old.items ++ field_bytes (field_lines length word.now) }
    ensures len { array_vec_len room.new ≤ array_vec_len room.old + FIELD_ROOM }
{
    let line = line_with(length, word);
    put_bytes(room, &[2]);
    put_bytes(room, &line);
    put_bytes(room, &line);
}

/// The bytes of a line with this word.
fn line_with(length: u32, word: &VitcWord) -> Line
    requires lines { HasLines (system_with word.now.fields.label.count) }
    requires length { IsLineLength length }
    ensures { result.items ≡ line_bytes (runs_in length (line_of word.now)) }
{
    each_word_has_its_line();
    spelling_is_exact();
    let mut runs = [0; 90];
    let number = runs_of(length, encode(word), &mut runs);
    let mut line = Line::new();
    line.push(number as u8);
    push_runs(&mut line, &runs[..number]);
    line
}

/// Runs, two bytes each, the most significant one first.
fn push_runs(line: &mut Line, runs: &[u16])
    requires { array_vec_len line.old + 2 * length runs.now ≤ 179 }
    ensures { line.new.items ≡ line.old.items ++ flat_map (big_bytes 2) runs.now }
{
    'runs: for index in 0..runs.len() {
        let mut bytes = [0; 2];
        BigEndian::write_u16(&mut bytes, runs[index]);
        match line.try_extend_from_slice(&bytes) {
            Ok(()) => (),
            Err(_) => unreachable!(),
        }
    }
}
