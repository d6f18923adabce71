//! Fixed room, in which bytes wait between a source and a sink. Read next: `sink`.
ghost use Rattle.std.specs.Prelude.{◌≡◌, ◌+◌, ◌≤◌, ◌++◌, length};
ghost use Rattle.arrayvec.specs.ArrayVec.{array_vec_len};

use arrayvec::ArrayVec;

/// Puts bytes at the end of fixed room that has place for them.
pub fn put_bytes<const N: usize>(room: &mut ArrayVec<u8, N>, bytes: &[u8])
    requires { array_vec_len room.old + length bytes.now ≤ N }
    ensures items { room.new.items ≡ room.old.items ++ bytes.now }
    ensures len { array_vec_len room.new ≡ array_vec_len room.old + length bytes.now }
{
    match room.try_extend_from_slice(bytes) {
        Ok(()) => (),
        Err(_) => unreachable!(),
    }
}
