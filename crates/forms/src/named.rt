//! The task that a command and the words behind it name. Read next: `table`.
ghost use Rattle.std.specs.Prelude.{◌≡◌, map};
ghost use Rattle.forms.specs.Named.{task_of};

use crate::form::takes;
use crate::made::made;
use crate::reading::read;
use crate::table::form_of;
use tc_job::{Task, WordsFault};

/// The task that a command and the words behind it name, or their first fault.
#[tactic(auto, unfolding(crate::specs::Named::task_of))]
pub fn task_of(command: &str, words: &[&str]) -> Result<Task, WordsFault>
    ensures { result ≡ task_of command.now (map (λ w. w.now) words.now) }
{
    let Some(form) = form_of(command, words) else {
        return Err(WordsFault::Command);
    };
    if !takes(form.2, words.len()) {
        return Err(WordsFault::CountOfWords);
    }
    match read(form.2, words) {
        Ok(values) => Ok(made(form.3, values.as_slice())),
        Err(place) => Err(WordsFault::Value(place)),
    }
}
