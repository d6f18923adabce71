//! Truth values, flags and directions in a line; and a direction that is read.
ghost use Rattle.std.specs.Prelude.{◌≡◌, ◌+◌, ◌≤◌, ◌<◌, ◌++◌};
ghost use Rattle.arrayvec.specs.ArrayVec.{array_vec_len};
ghost use Rattle.line_text.specs.Line.{direction_name, direction_named, flag_digit, flags_text};

use crate::line::Text;
use tc_address::Direction;
use tc_bits::Flags;

/// Appends the digit of a truth value, 1 or 0.
pub fn push_flag(text: &mut Text, flag: bool)
    requires { array_vec_len text.old < 128 }
    ensures items { text.new.items ≡ text.old.items ++ flag_digit flag }
    ensures len { array_vec_len text.new ≡ array_vec_len text.old + 1 }
{
    text.push(if flag { b'1' } else { b'0' });
}

/// Appends the five flag bits: drop-frame, colour-frame, and binary group flags 0, 1 and 2.
pub fn push_flags(text: &mut Text, flags: Flags)
    requires { array_vec_len text.old + 5 ≤ 128 }
    ensures items { text.new.items ≡ text.old.items ++ flags_text flags }
    ensures len { array_vec_len text.new ≡ array_vec_len text.old + 5 }
{
    push_flag(text, flags.drop_frame);
    push_flag(text, flags.colour_frame);
    push_flag(text, flags.group_flag_zero);
    push_flag(text, flags.group_flag_one);
    push_flag(text, flags.group_flag_two);
}

/// The name of a direction.
pub fn direction_name(direction: Direction) -> &'static str
    ensures { result.now ≡ direction_name direction }
{
    match direction {
        Direction::Forward => "forward",
        Direction::Backward => "backward",
    }
}

/// The direction that a word names: `forward` or `backward`.
#[tactic(auto, unfolding(crate::specs::Line::direction_named))]
pub fn direction_named(word: &[u8]) -> Option<Direction>
    ensures { result ≡ direction_named word.now }
{
    if word == b"forward".as_slice() {
        Some(Direction::Forward)
    } else if word == b"backward".as_slice() {
        Some(Direction::Backward)
    } else {
        None
    }
}
