//! The words behind a command as values. Read next: `held`.
ghost use Rattle.std.specs.Prelude.{◌≡◌, ◌≤◌, ◌<◌, ◌+◌, ◌++◌, [], ◌∷◌, length, map, IfOk};
ghost use Rattle.forms.specs.Reading.{AreFit, FitOn, map_ok, read, read_on};

use crate::slot::{Need, Slot, value_in};
use crate::value::{Said, Value};
use arrayvec::ArrayVec;

/// At most so many words stand behind a command.
pub const MAX_VALUES: usize = 8;

/// The values of words.
pub type Values = ArrayVec<Value, MAX_VALUES>;

/// The values of words in these slots, or the place of the first word that has none: the first word behind the command
/// has place 1.
pub fn read(slots: &[(Need, Slot)], words: &[&str]) -> Result<Values, usize>
    requires { length words.now ≤ MAX_VALUES }
    ensures value { map_ok (λ values. values.items) result ≡ read slots.now (map (λ w. w.now) words.now) }
    ensures fits { IfOk result (λ values. AreFit slots.now values.items × (length values.items ≡ length words.now)) }
{
    read_on(Values::new(), slots, words)
}

/// The same of the slots and words that come after some values.
#[tactic(auto, unfolding(crate::specs::Reading::read_on, crate::specs::Reading::AreFitAfter))]
fn read_on(before: Values, slots: &[(Need, Slot)], words: &[&str]) -> Result<Values, usize>
    requires { length before.items + length words.now ≤ MAX_VALUES }
    ensures value { map_ok (λ values. values.items) result
        ≡ read_on before.items slots.now (map (λ w. w.now) words.now) }
    ensures fits { IfOk result (λ values. FitOn before.items slots.now (length words.now) values.items) }
{
    match words {
        [] => Ok(before),
        [word, more @ ..] => match slots {
            [] => Err(before.len() + 1),
            [slot, others @ ..] => {
                let is_last = more.is_empty();
                match value_in(slot.0, slot.1, before.as_slice(), is_last, word) {
                    None => Err(before.len() + 1),
                    Some(value) => read_on(with_value(before, value), others, more),
                }
            }
        },
    }
}

/// The values, and one more.
fn with_value(before: Values, value: Value) -> Values
    requires { length before.items < MAX_VALUES }
    ensures { result.items ≡ before.items ++ value ∷ [] }
{
    let mut values = before;
    values.push(value);
    values
}

impl Default for Value {
    fn default() -> Value {
        Value::Said(Said::Live)
    }
}
