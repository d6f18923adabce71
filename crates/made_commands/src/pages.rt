//! The pages of help: what it says of one command (`help COMMAND`), and of the exit numbers (`help statuses`). Read
//! next: `tc_job/src/pages.rt`.
ghost use Rattle.std.specs.Prelude.{◌≡◌, ◌+◌, ◌-◌, ◌<◌, ◌≤◌, ◌++◌, [], true, false, length, drop, map};
ghost use Rattle.arrayvec.specs.ArrayVec.{array_vec_len};
ghost use Rattle.made_commands.specs.Pages.{examples, line_of, page_in, page_lines, page_text, row_of, said};
ghost use Rattle.made_commands.specs.Pages.{statuses_text, text_of, values};

use crate::about::push_usage;
use arrayvec::ArrayVec;
use tc_command::{Command, Stop, Way};
use tc_io::put_bytes;
use tc_job::PageLine;
use tc_job::pages::{EXAMPLES, EXIT_NUMBERS, SAID};
use tc_job::usages::USAGES;
use tc_job::values::VALUES;

/// How many bytes a page has at most: its lines are out of the tables, and all their lines together have fewer.
const PAGE: usize = 16_384;

/// The room in which a page is put together.
type Room = ArrayVec<u8, PAGE>;

/// `help COMMAND`, of the command whose row in the table of usages has this number.
#[derive(Clone, Copy)]
pub struct HelpOf {
    pub page: usize,
}

impl Command for HelpOf {
    ghost use Rattle.made_commands.specs.Pages.{told_page};

    ghost told = { λ command. told_page command.page };

    fn work<W: Way>(&self, way: &mut W) -> Result<(), Stop> {
        way.write(&page_text(self.page))
    }

    fn keeps_its_promise(&self) {}

    fn is_lawful() {}
}

/// `help statuses`: what each exit number means, and what to do.
#[derive(Clone, Copy)]
pub struct HelpStatuses;

impl Command for HelpStatuses {
    ghost use Rattle.made_commands.specs.Pages.{told_statuses};

    ghost told = { λ command. told_statuses };

    fn work<W: Way>(&self, way: &mut W) -> Result<(), Stop> {
        way.write(&statuses_text())
    }

    fn keeps_its_promise(&self) {}

    fn is_lawful() {}
}

/// The page of a row of the table of usages.
#[tactic(auto, using(crate::proofs::PageLines::page_fits))]
fn page_text(page: usize) -> Room
    ensures { result.items ≡ page_text page }
{
    let mut text = Room::new();
    push_page_text(page, &mut text);
    text
}

/// The same, behind what the room has.
fn push_page_text(page: usize, room: &mut Room)
    requires { array_vec_len room.old + length (page_text page) ≤ PAGE }
    ensures { room.new.items ≡ room.old.items ++ page_text page }
{
    push_row_page(&USAGES, page, room);
}

/// The same of any table of usages: nothing, if it has no such row.
fn push_row_page(usages: &[(&str, &str)], page: usize, room: &mut Room)
    requires { array_vec_len room.old
        + length (page_in (map (λ row. (row.0.now, row.1.now)) usages.now) page) ≤ PAGE }
    ensures { room.new.items ≡ room.old.items ++ page_in (map (λ row. (row.0.now, row.1.now)) usages.now) page }
{
    if usages.len() <= page {
        return;
    }
    let (command, values) = usages[page];
    push_page(command, values, room);
}

/// How the command is typed, and the lines of its page.
fn push_page(command: &str, values: &str, room: &mut Room)
    requires { array_vec_len room.old + length (text_of (command.now, values.now)) ≤ PAGE }
    ensures { room.new.items ≡ room.old.items ++ text_of (command.now, values.now) }
{
    push_usage(command, values, room);
    push_said(command, room);
    push_values(command, room);
    push_examples(command, room);
}

/// What a command does.
fn push_said(command: &str, room: &mut Room)
    requires { array_vec_len room.old + length (page_lines command.now said) ≤ PAGE }
    ensures items { room.new.items ≡ room.old.items ++ page_lines command.now said }
    ensures len { array_vec_len room.new ≡ array_vec_len room.old + length (page_lines command.now said) }
{
    push_lines(command, &SAID, room);
}

/// The values of its words.
fn push_values(command: &str, room: &mut Room)
    requires { array_vec_len room.old + length (page_lines command.now values) ≤ PAGE }
    ensures items { room.new.items ≡ room.old.items ++ page_lines command.now values }
    ensures len { array_vec_len room.new ≡ array_vec_len room.old + length (page_lines command.now values) }
{
    push_lines(command, &VALUES, room);
}

/// Its examples.
fn push_examples(command: &str, room: &mut Room)
    requires { array_vec_len room.old + length (page_lines command.now examples) ≤ PAGE }
    ensures items { room.new.items ≡ room.old.items ++ page_lines command.now examples }
    ensures len { array_vec_len room.new ≡ array_vec_len room.old + length (page_lines command.now examples) }
{
    push_lines(command, &EXAMPLES, room);
}

/// A line or more for each status.
#[tactic(auto, using(crate::proofs::PageLines::statuses_fit))]
fn statuses_text() -> Room
    ensures { result.items ≡ statuses_text }
{
    let mut text = Room::new();
    push_statuses(&mut text);
    text
}

/// The same, behind what the room has.
fn push_statuses(room: &mut Room)
    requires { array_vec_len room.old + length statuses_text ≤ PAGE }
    ensures { room.new.items ≡ room.old.items ++ statuses_text }
{
    push_lines("statuses", &EXIT_NUMBERS, room);
}

/// The lines of the rows of the topic.
fn push_lines(topic: &str, rows: &[(&str, PageLine)], room: &mut Room)
    requires { array_vec_len room.old + length (page_lines topic.now
        (map (λ row. row_of row.0.now row.1.0.now row.1.1.now row.1.2.now) rows.now)) ≤ PAGE }
    ensures items { room.new.items ≡ room.old.items ++ page_lines topic.now
        (map (λ row. row_of row.0.now row.1.0.now row.1.1.now row.1.2.now) rows.now) }
    ensures len { array_vec_len room.new ≡ array_vec_len room.old + length (page_lines topic.now
        (map (λ row. row_of row.0.now row.1.0.now row.1.1.now row.1.2.now) rows.now)) }
{
    'rows: for (told, line) in rows {
        let (before, words, behind) = *line;
        push_row(topic, told, before, words, behind, room);
    }
}

/// The line of a row, if it is of the topic.
fn push_row(topic: &str, told: &str, before: &str, words: &str, behind: &str, room: &mut Room)
    requires { array_vec_len room.old
        + length (line_of topic.now (row_of told.now before.now words.now behind.now)) ≤ PAGE }
    ensures items { room.new.items
        ≡ room.old.items ++ line_of topic.now (row_of told.now before.now words.now behind.now) }
    ensures len { array_vec_len room.new
        ≡ array_vec_len room.old + length (line_of topic.now (row_of told.now before.now words.now behind.now)) }
{
    if *told == *topic {
        put_text(room, before);
        put_text(room, words);
        put_text(room, behind);
        put_bytes(room, b"\n");
    }
}

/// The bytes of a text.
fn put_text(room: &mut Room, text: &str)
    requires { array_vec_len room.old + length text.now ≤ PAGE }
    ensures items { room.new.items ≡ room.old.items ++ text.now }
    ensures len { array_vec_len room.new ≡ array_vec_len room.old + length text.now }
{
    put_bytes(room, text.as_bytes());
}
