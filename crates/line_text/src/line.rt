//! A line, and the bytes that are appended to it. Read next: `numbers`.
ghost use Rattle.std.specs.Prelude.{◌≡◌, ◌+◌, ◌≤◌, ◌++◌, length};
ghost use Rattle.arrayvec.specs.ArrayVec.{array_vec_len};

use arrayvec::ArrayVec;

/// One line of a report, with its newline.
pub type Text = ArrayVec<u8, 128>;

/// Appends bytes.
pub fn push_bytes(text: &mut Text, bytes: &[u8])
    requires { array_vec_len text.old + length bytes.now ≤ 128 }
    ensures items { text.new.items ≡ text.old.items ++ bytes.now }
    ensures len { array_vec_len text.new ≡ array_vec_len text.old + length bytes.now }
{
    let _fits = text.try_extend_from_slice(bytes);
}
