//! The words of the command line as a task, or their first fault. Read next: `command_words/src/command_line.rt`, and
//! then `forms/src/table.rt`.
ghost use Rattle.std.specs.Prelude.{◌≡◌, ◌⊎◌, length, map, position, string_bytes, alloc_error};
ghost use Rattle.command_words.specs.CommandLine.{begins_with_dash};
ghost use Rattle.tc_words.specs.Words.{answer_to, without_dashes, IsRefusedAtOnce};

use command_words::CommandLine;
use forms::task_of;
use std::alloc::Global;
use tc_job::{Task, WordsFault};

/// The task of the words, or their first fault. Word 0 is the command.
pub fn read_words(alloc: Global, words: &[String]) -> Result<Task, WordsFault>
    ensures answer { (result ≡ answer_to (map string_bytes words.now))
        ⊎ (result ≡ Err (WordsFault.Memory alloc_error)) }
    ensures at_once { IsRefusedAtOnce (map string_bytes words.now) → result ≡ answer_to (map string_bytes words.now) }
{
    match first_dash(words) {
        Some(place) => Err(WordsFault::Dash(place)),
        None => without_dashes(alloc, words),
    }
}

// The same of words of which none begins with a dash.
#[tactic(auto, using(crate::proofs::FirstDash::no_dashes))]
fn without_dashes(alloc: Global, words: &[String]) -> Result<Task, WordsFault>
    requires { position begins_with_dash (map string_bytes words.now) ≡ None }
    ensures answer { (result ≡ without_dashes (map string_bytes words.now))
        ⊎ (result ≡ Err (WordsFault.Memory alloc_error)) }
    ensures none { length words.now ≡ 0 → result ≡ Err WordsFault.Command }
{
    if words.is_empty() {
        return Err(WordsFault::Command);
    }
    match CommandLine::read(alloc, words) {
        Ok(line) => task_of(line.command(), line.values()),
        Err(memory) => Err(WordsFault::Memory(memory)),
    }
}

// The first word that begins with a dash.
fn first_dash(words: &[String]) -> Option<usize>
    ensures { result ≡ position (λ word. begins_with_dash (string_bytes word)) words.now }
{
    words.iter().position(|word| begins_with_dash(word))
}

fn begins_with_dash(word: &str) -> bool
    ensures { result ≡ begins_with_dash word.now }
{
    word.as_bytes().first() == Some(&b'-')
}
