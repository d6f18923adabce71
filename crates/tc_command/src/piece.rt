//! The room in which output is gathered before it is pushed. Read next: `outlet`.
ghost use Rattle.std.specs.Prelude.{◌≡◌, ◌+◌, ◌≤◌, ◌++◌};
ghost use Rattle.arrayvec.specs.ArrayVec.{array_vec_len};
ghost use Rattle.interval_file.specs.declared.header.FileVersion.TheVariants.{One};
ghost use Rattle.interval_file.specs.Piece.{spelling};

use arrayvec::ArrayVec;
use interval_file::four_bytes;
use tc_io::put_bytes;

/// The room in which output is gathered before it is pushed.
pub type Piece = ArrayVec<u8, PIECE>;

/// How many bytes it takes.
pub const PIECE: usize = 4096;

/// Puts an interval of `ticks` ticks, as an interval file of version 1 has it: four bytes, the most
/// significant one first.
pub fn put_interval(room: &mut Piece, ticks: u32)
    requires { array_vec_len room.old + 4 ≤ PIECE }
    ensures items { room.new.items ≡ room.old.items ++ spelling One ticks }
    ensures len { array_vec_len room.new ≡ array_vec_len room.old + 4 }
{
    put_bytes(room, &four_bytes(ticks));
}
