//! `ltc-make`: a recording made of labels. Read next: `biphase/src/shaper.rt`.
ghost use Rattle.std.specs.Prelude.{◌≡◌, ◌+◌, ◌^◌, ◌<◌, ◌≤◌, Bool, false, true, List, [], ◌∷◌, ◌++◌, length, None};
ghost use Rattle.arrayvec.specs.ArrayVec.{array_vec_len};
ghost use Rattle.biphase.specs.Chain.{intervals_of};
ghost use Rattle.direction_reader.specs.Played.{low_bits};
ghost use Rattle.flywheel.specs.Frames.{steps_in};
ghost use Rattle.interval_file.specs.declared.header.FileVersion.TheVariants.{One};
ghost use Rattle.interval_file.specs.Grammar.{intervals_bytes};
ghost use Rattle.made_commands.specs.KeptStriping.{cell_bytes, rest_of};
ghost use Rattle.made_commands.specs.Made.{made};

use crate::laws::what_is_made_is_read_whole;
use biphase::{Cell, Shaper};
use interval_file::{FileVersion, IntervalHeader, interval_header};
use ltc_jam::played_bits;
use tc_address::laws::steps_add_up;
use tc_address::{Direction, Label, advance, system_of};
use tc_command::{Command, Maker, PIECE, Piece, Stop, Way, put_interval};
use tc_io::put_bytes;
use tc_job::Stripe;

/// The room that the intervals of a frame take at most: 80 ones of two intervals of four bytes.
const FRAME_ROOM: usize = 640;

/// `ltc-make`: the recording of a stripe.
#[derive(Clone, Copy)]
pub struct LtcMake {
    pub stripe: Stripe,
}

impl Command for LtcMake {
    ghost use Rattle.made_commands.specs.Made.{told_ltc_make};

    ghost told = { λ command. told_ltc_make command.stripe };

    fn work<W: Way>(&self, way: &mut W) -> Result<(), Stop> {
        way.make(&mut UnmadeRecording::new(&self.stripe))
    }

    fn keeps_its_promise(&self) {
        what_is_made_is_read_whole();
        let _frames = self.stripe.frames();
    }

    fn is_lawful() {}
}

/// A recording that is still to be made.
#[derive(Drop)]
struct UnmadeRecording {
    header: Option<[u8; 12]>,
    shaper: Shaper,
    direction: Direction,
    label: Label,
    frames: u32,
}

impl UnmadeRecording {
    /// The whole recording of a stripe.
    fn new(stripe: &Stripe) -> UnmadeRecording
        ensures rest { rest_of result.header result.shaper result.direction result.label result.frames
            ≡ made stripe.now }
    {
        let label = stripe.label();
        let header = IntervalHeader {
            version: FileVersion::One,
            system: system_of(label.count()),
            tick_rate: stripe.tick_rate(),
        };
        UnmadeRecording {
            header: Some(interval_header(&header)),
            shaper: stripe.shaper(),
            direction: stripe.direction(),
            label,
            frames: stripe.frames(),
        }
    }

    /// Writes the next frame, and goes on to the next label.
    fn frame(&mut self, room: &mut Piece)
        requires some { 0 < self.old.frames }
        requires room { array_vec_len room.old + FRAME_ROOM ≤ PIECE }
        ensures rest { room.new.items ++ rest_of None self.new.shaper self.new.direction self.new.label self.new.frames
            ≡ room.old.items ++ rest_of None self.old.shaper self.old.direction self.old.label self.old.frames }
        ensures frames { self.new.frames + 1 ≡ self.old.frames }
        ensures header { self.new.header ≡ self.old.header }
    {
        steps_add_up();
        let bits = played_bits(self.direction, &self.label);
        write_bits(&mut self.shaper, bits, room);
        self.label = advance(&self.label, one_step(self.direction));
        self.frames -= 1;
    }
}

impl Maker for UnmadeRecording {
    ghost use Rattle.made_commands.specs.KeptStriping.{pieces_of, rest_of};

    ghost rest = { λ s. rest_of s.header s.shaper s.direction s.label s.frames };

    ghost pieces = { λ s. pieces_of s.header s.frames };

    fn give(&mut self, room: &mut Piece) -> bool {
        if let Some(header) = self.header.take() {
            begin(&header, &mut self.shaper, room);
            return true;
        }
        if self.frames == 0 {
            return false;
        }
        self.frame(room);
        'frames: while 0 < self.frames && room.len() <= PIECE - FRAME_ROOM {
            self.frame(room);
        }
        true
    }
}

/// The step from a label to the next one.
fn one_step(direction: Direction) -> i64
    ensures { result ≡ steps_in direction 1 }
{
    match direction {
        Direction::Forward => 1,
        Direction::Backward => -1,
    }
}

/// The header, and a zero and a one, by which a reader locks.
fn begin(header: &[u8; 12], shaper: &mut Shaper, room: &mut Piece)
    requires { room.old.items ≡ [] }
    ensures { (tail : List Bool) → room.new.items ++ cell_bytes shaper.new tail
        ≡ header.now ++ cell_bytes shaper.old (false ∷ true ∷ tail) }
{
    put_bytes(room, header);
    push_cell(room, shaper.next_cell(false));
    push_cell(room, shaper.next_cell(true));
}

/// The cells of 80 bits, bit 0 first.
fn write_bits(shaper: &mut Shaper, bits: u128, room: &mut Piece)
    requires { array_vec_len room.old + FRAME_ROOM ≤ PIECE }
    ensures cells { (tail : List Bool) → room.new.items ++ cell_bytes shaper.new tail
        ≡ room.old.items ++ cell_bytes shaper.old (low_bits 80 bits ++ tail) }
    ensures len { array_vec_len room.new ≤ array_vec_len room.old + FRAME_ROOM }
{
    let mut rest = bits;
    'cells: for _done in 0..80u32 {
        push_cell(room, shaper.next_cell(rest % 2 == 1));
        rest /= 2;
    }
}

/// The intervals of a cell.
fn push_cell(room: &mut Piece, cell: Cell)
    requires { array_vec_len room.old + 8 ≤ PIECE }
    ensures items { room.new.items ≡ room.old.items ++ intervals_bytes One (intervals_of cell) }
    ensures len { array_vec_len room.new ≤ array_vec_len room.old + 8 }
{
    match cell {
        Cell::Zero(ticks) => put_interval(room, ticks),
        Cell::One(first, second) => {
            put_interval(room, first);
            put_interval(room, second);
        }
    }
}
