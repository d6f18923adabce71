//! How a command is typed. Read next: `choices`.
ghost use Rattle.std.specs.Prelude.{◌≡◌, ◌≤◌, length, map, true};
ghost use Rattle.forms.specs.Form.{Row, are_met, is_met, takes};

use crate::choices::said_by;
use crate::command::Command;
use crate::slot::{Need, Slot};

/// A way to type a command: its word; its marks, which are the places at which one of the words of a choice has to
/// stand so that the words are read in this way; the slots of the words behind it; and which job they name. It is no
/// struct, since a definition can't name a constant that has a struct with a text in it.
pub type Form = (
    &'static str,
    &'static [(usize, usize)],
    &'static [(Need, Slot)],
    Command,
);

/// Whether so many words may stand behind the command: one for each slot, or for those before one that may be left out.
pub fn takes(slots: &[(Need, Slot)], count: usize) -> bool
    ensures value { result ≡ takes slots.now count }
    ensures most { result ≡ true → count ≤ length slots.now }
{
    match slots.get(count) {
        Some((need, _)) => need.may_be_left_out(),
        None => count == slots.len(),
    }
}

/// Whether each mark stands in the words.
pub(crate) fn are_met(marks: &[(usize, usize)], words: &[&str]) -> bool
    ensures { result ≡ are_met marks.now (map (λ w. w.now) words.now) }
{
    match marks {
        [] => true,
        [mark, others @ ..] => is_met(mark.0, mark.1, words) && are_met(others, words),
    }
}

fn is_met(place: usize, choice: usize, words: &[&str]) -> bool
    ensures { result ≡ is_met place choice (map (λ w. w.now) words.now) }
{
    match words.get(place) {
        Some(word) => said_by(choice, word).is_some(),
        None => false,
    }
}
