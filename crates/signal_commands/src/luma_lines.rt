//! The lines of a field, as a line file has them. Read next: `tc_command/src/output.rt`.
ghost use Rattle.std.specs.Prelude.{◌≡◌, ◌+◌, ◌*◌, ◌≤◌, ◌++◌, length};
ghost use Rattle.std.specs.List.{flat_map, All};
ghost use Rattle.arrayvec.specs.ArrayVec.{array_vec_len};
ghost use Rattle.byteorder.specs.Endian.{big_bytes};
ghost use Rattle.line_file.specs.Grammar.{field_bytes, line_bytes};
ghost use Rattle.luma_field.specs.Field.{IsLine};
ghost use Rattle.vitc_reader.specs.Written.{runs_in};
ghost use Rattle.signal_commands.specs.LumaVitc.{written_lines};

use arrayvec::ArrayVec;
use byteorder::{BigEndian, ByteOrder};
use line_file::FIELD_ROOM;
use luma_field::Lines;
use vitc_reader::runs_of;

/// How long a line lasts, in ticks: 115 cells of 16.
pub const LINE_LENGTH: u32 = 1_840;

/// The room that a line takes at most: its number of runs, and 89 runs.
const LINE_ROOM: usize = 179;

/// The bytes of a field.
pub(crate) type FieldBytes = ArrayVec<u8, FIELD_ROOM>;

/// A field of these lines.
pub(crate) fn field_of(lines: &Lines) -> FieldBytes
    requires few { length lines.now.items ≤ 20 }
    requires bits { All IsLine lines.now.items }
    ensures { result.items ≡ field_bytes (written_lines lines.now.items) }
{
    let mut field = FieldBytes::new();
    field.push(lines.len() as u8);
    'lines: for index in 0..lines.len() {
        add_line(&mut field, lines[index]);
    }
    field
}

/// A line of these bits: its number of runs, and its runs.
fn add_line(field: &mut FieldBytes, bits: u128)
    requires bits { IsLine bits }
    requires room { array_vec_len field.old + LINE_ROOM ≤ FIELD_ROOM }
    ensures items { field.new.items ≡ field.old.items ++ line_bytes (runs_in LINE_LENGTH bits) }
    ensures len { array_vec_len field.new ≤ array_vec_len field.old + LINE_ROOM }
{
    let mut runs = [0; 90];
    let number = runs_of(LINE_LENGTH, bits, &mut runs);
    field.push(number as u8);
    add_runs(field, &runs[..number]);
}

/// Runs, two bytes each, the most significant one first.
fn add_runs(field: &mut FieldBytes, runs: &[u16])
    requires { array_vec_len field.old + 2 * length runs.now ≤ FIELD_ROOM }
    ensures items { field.new.items ≡ field.old.items ++ flat_map (big_bytes 2) runs.now }
    ensures len { array_vec_len field.new ≡ array_vec_len field.old + 2 * length runs.now }
{
    'runs: for index in 0..runs.len() {
        let mut bytes = [0; 2];
        BigEndian::write_u16(&mut bytes, runs[index]);
        if field.try_extend_from_slice(&bytes).is_err() {
            unreachable!();
        }
    }
}
