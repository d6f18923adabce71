//! The commands about the program itself: `help` and `version`.
//! Read next: `pages`, which is about one command.
ghost use Rattle.std.specs.Prelude.{◌≡◌, ◌+◌, ◌≤◌, ◌++◌, length, map};
ghost use Rattle.arrayvec.specs.ArrayVec.{array_vec_len};
ghost use Rattle.made_commands.specs.About.{help_text, usage_line, usage_lines, version_line};

use arrayvec::ArrayVec;
use tc_command::{Command, PIECE, Piece, Stop, Way};
use tc_io::put_bytes;
use tc_job::usages::USAGES;

/// The number of this version, which is in the file `VERSION` at the top too.
pub const VERSION: &str = "1.2.0";

/// The last line of `help`.
pub const MANUAL: &str = "The manual: man 1 tc, and of files and lines man 5 tc-formats.";

/// `help`: how each command is typed, and where the manual is.
#[derive(Clone, Copy)]
pub struct Help;

impl Command for Help {
    ghost use Rattle.made_commands.specs.About.{told_help};

    ghost told = { λ command. told_help };

    fn work<W: Way>(&self, way: &mut W) -> Result<(), Stop> {
        way.write(&help_text())
    }

    fn keeps_its_promise(&self) {}

    fn is_lawful() {}
}

/// `version`: which version this is.
#[derive(Clone, Copy)]
pub struct Version;

impl Command for Version {
    ghost use Rattle.made_commands.specs.About.{told_version};

    ghost told = { λ command. told_version };

    fn work<W: Way>(&self, way: &mut W) -> Result<(), Stop> {
        way.write(&version_line())
    }

    fn keeps_its_promise(&self) {}

    fn is_lawful() {}
}

/// A line a command, and the line of the manual.
#[tactic(auto, unfolding(crate::specs::About::help_text))]
fn help_text() -> Piece
    ensures { result.items ≡ help_text }
{
    let mut text = Piece::new();
    push_usages(&USAGES, &mut text);
    put_bytes(&mut text, MANUAL.as_bytes());
    put_bytes(&mut text, b"\n");
    text
}

/// The name of the program and the number.
fn version_line() -> Piece
    ensures { result.items ≡ version_line }
{
    let mut text = Piece::new();
    put_bytes(&mut text, b"tc ");
    put_bytes(&mut text, VERSION.as_bytes());
    put_bytes(&mut text, b"\n");
    text
}

/// The lines of rows of the table.
fn push_usages(usages: &[(&str, &str)], room: &mut Piece)
    requires { array_vec_len room.old + length (usage_lines (map (λ row. (row.0.now, row.1.now)) usages.now)) ≤ PIECE }
    ensures items { room.new.items ≡ room.old.items ++ usage_lines (map (λ row. (row.0.now, row.1.now)) usages.now) }
    ensures len { array_vec_len room.new
        ≡ array_vec_len room.old + length (usage_lines (map (λ row. (row.0.now, row.1.now)) usages.now)) }
{
    'usages: for (command, values) in usages {
        push_usage(command, values, room);
    }
}

/// The line of a row.
pub(crate) fn push_usage<const N: usize>(command: &str, values: &str, room: &mut ArrayVec<u8, N>)
    requires { array_vec_len room.old + length (usage_line (command.now, values.now)) ≤ N }
    ensures items { room.new.items ≡ room.old.items ++ usage_line (command.now, values.now) }
    ensures len { array_vec_len room.new ≡ array_vec_len room.old + length (usage_line (command.now, values.now)) }
{
    put_bytes(room, command.as_bytes());
    put_bytes(room, values.as_bytes());
    put_bytes(room, b"\n");
}
