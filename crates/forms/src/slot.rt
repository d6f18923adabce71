//! What a word behind a command is read as. Read next: `number`.
ghost use Rattle.std.specs.Prelude.{◌≡◌, ◌≤◌, IfSome, option_map, position};
ghost use Rattle.std.specs.Str.{bytes_eq};
ghost use Rattle.forms.specs.Choice.{said_by};
ghost use Rattle.forms.specs.Number.{between, number_spelled};
ghost use Rattle.forms.specs.Slot.{Fits, FitsIn, IsLabelOf, IsNumberIn, IsPathFineness, IsPathRate, IsSaidBy, IsSeed};
ghost use Rattle.forms.specs.Slot.{bounded_by, has_steps, is_live, label_read, may_be_left_out, numbered};
ghost use Rattle.forms.specs.Slot.{columns_read, frames_read, path_fineness_in};
ghost use Rattle.forms.specs.Slot.{path_rate_in, pulled_in, topic_in, value_in, value_of};
ghost use Rattle.limits.specs.declared.recording.TheConstants.{MAX_TICK_RATE};
ghost use Rattle.tc_address.specs.Label.{IsLabel};
ghost use Rattle.tc_job.specs.declared.slicing.TheConstants.{MAX_FINENESS};
ghost use Rattle.tc_job.specs.declared.usages.TheConstants.{USAGES};

use crate::choices::{NTSC, STATUSES, is_word, said_by};
use crate::held::{count_at, number_or, system_at};
use crate::number::{between, number_spelled};
use crate::value::{Said, Value};
use label_columns::MAX_COLUMN;
use limits::MAX_TICK_RATE;
use tc_address::{Count, Label, System, day_labels, label_at, number as number_in_day, read_text};
use tc_job::usages::USAGES;
use tc_job::{MAX_FINENESS, grid_for, step_ticks};

/// What a word is read as. A place is that of a value before it, from 0 on.
#[derive(Clone, Copy)]
pub enum Slot {
    /// A number from the least to the most.
    Number(u32, u32),
    /// The same, and at most as much as the values before it allow.
    Bounded(u32, u32, Bound),
    /// A number below 2^64.
    Seed,
    /// One of the words of this row of `CHOICES`.
    OneOf(usize),
    /// A label of the count at this place.
    Label { count: usize },
    /// The number of a label in the day of the count at this place.
    NumberOfDay { count: usize },
    /// The word `ntsc`, after a count at this place that may be pulled down.
    Ntsc { count: usize },
    /// Samples a second of a sound through which a path can be followed.
    PathRate { system: usize },
    /// Ticks a sample of such a sound.
    PathFineness { system: usize, rate: usize },
    /// So many frames: a number, or a label of the count at this place, which has that number in the day.
    Frames { count: usize },
    /// A column, or neighbouring ones: `N`, or `N-M`.
    Columns,
    /// A command, or another page of help.
    Topic,
}

/// How values before it bound a number.
#[derive(Clone, Copy)]
pub enum Bound {
    /// Its product with the number at this place is at most this.
    Product { place: usize, most: u32 },
    /// It is at most an eighth of the numbers at two places.
    Eighth { one: usize, other: usize },
    /// It is below the number at this place.
    Below { place: usize },
    /// Together with the number at one place it is at most that at another.
    Rest { all: usize, first: usize },
}

/// Whether a word has to be there.
#[derive(Clone, Copy)]
pub enum Need {
    /// It is there if the word before it is.
    Needed,
    /// It may be left out, with all that come after it.
    Optional,
    /// The same, and if it is the last word it may be `live`.
    OrLive,
}

impl Need {
    /// Whether the word may be left out.
    pub(crate) fn may_be_left_out(self) -> bool
        ensures { result ≡ may_be_left_out self }
    {
        match self {
            Need::Needed => false,
            Need::Optional | Need::OrLive => true,
        }
    }
}

/// The value of a word in a slot, after the values before it; and whether it is the last word.
pub(crate) fn value_in(
    need: Need,
    slot: Slot,
    before: &[Value],
    last: bool,
    word: &str,
) -> Option<Value>
    ensures value { result ≡ value_in need slot before.now last word.now }
    ensures fits { IfSome result (FitsIn need slot before.now) }
{
    if is_live(need, last, word) {
        Some(Value::Said(Said::Live))
    } else {
        value_of(slot, before, word)
    }
}

fn is_live(need: Need, last: bool, word: &str) -> bool
    ensures { result ≡ is_live need last word.now }
{
    match need {
        Need::OrLive => last && is_word(word, "live"),
        _ => false,
    }
}

/// The value of a word in a slot, after the values before it.
fn value_of(slot: Slot, before: &[Value], word: &str) -> Option<Value>
    ensures value { result ≡ value_of slot before.now word.now }
    ensures fits { IfSome result (Fits slot before.now) }
{
    match slot {
        Slot::Number(least, most) => number(least, most, word),
        Slot::Bounded(least, most, bound) => {
            number(least, most.min(bounded_by(bound, before)), word)
        }
        Slot::Seed => seed(word),
        Slot::OneOf(choice) => said(choice, word),
        Slot::Label { count } => label(count_at(before, count), word),
        Slot::NumberOfDay { count } => numbered_label(count_at(before, count), word),
        Slot::Ntsc { count } => pulled(count_at(before, count), word),
        Slot::PathRate { system } => path_rate(system_at(before, system), word),
        Slot::PathFineness { system, rate } => {
            path_fineness(system_at(before, system), number_or(before, rate, 0), word)
        }
        Slot::Frames { count } => frames(count_at(before, count), word),
        Slot::Columns => columns(word),
        Slot::Topic => topic(word),
    }
}

/// The greatest number that the values before it allow.
fn bounded_by(bound: Bound, before: &[Value]) -> u32
    ensures { result ≡ bounded_by bound before.now }
{
    match bound {
        Bound::Product { place, most } => most / number_or(before, place, 0).max(1),
        Bound::Eighth { one, other } => {
            number_or(before, one, 0).min(number_or(before, other, 0)) / 8
        }
        Bound::Below { place } => number_or(before, place, 0).saturating_sub(1),
        Bound::Rest { all, first } => {
            number_or(before, all, 0).saturating_sub(number_or(before, first, 0))
        }
    }
}

fn number(least: u32, most: u32, word: &str) -> Option<Value>
    ensures value { result ≡ option_map (λ n. Value.Number n) (between least most word.now) }
    ensures fits { IfSome result (IsNumberIn least most) }
{
    let number = between(least, most, word)?;
    Some(Value::Number(number))
}

fn seed(word: &str) -> Option<Value>
    ensures value { result ≡ option_map (λ n. Value.Seed n) (number_spelled word.now) }
    ensures fits { IfSome result IsSeed }
{
    let seed = number_spelled(word)?;
    Some(Value::Seed(seed))
}

fn said(choice: usize, word: &str) -> Option<Value>
    ensures value { result ≡ option_map (λ said. Value.Said said) (said_by choice word.now) }
    ensures fits { IfSome result (IsSaidBy choice) }
{
    let said = said_by(choice, word)?;
    Some(Value::Said(said))
}

#[tactic(auto, unfolding(crate::specs::Slot::label_read))]
fn label(count: Count, word: &str) -> Option<Value>
    ensures value { result ≡ label_read count word.now }
    ensures fits { IfSome result (IsLabelOf count) }
{
    match read_text(word.as_bytes(), count) {
        Ok(label) => Some(Value::Label(label)),
        Err(_) => None,
    }
}

fn numbered_label(count: Count, word: &str) -> Option<Value>
    ensures value { result ≡ option_map (λ label. Value.Label label) (numbered count word.now) }
    ensures fits { IfSome result (IsLabelOf count) }
{
    let label = numbered(count, word)?;
    Some(Value::Label(label))
}

/// The label of the count that has this number in the day.
#[tactic(auto, unfolding(crate::specs::Slot::numbered))]
fn numbered(count: Count, word: &str) -> Option<Label>
    ensures value { result ≡ numbered count word.now }
    ensures valid { IfSome result (λ label. IsLabel label × (label.count ≡ count)) }
{
    let number = number_spelled(word)?;
    if number < u64::from(day_labels(count)) {
        label_at(count, number as u32)
    } else {
        None
    }
}

/// The word `ntsc`, if labels of the count may be pulled down.
fn pulled(count: Count, word: &str) -> Option<Value>
    ensures { result ≡ pulled_in count word.now }
{
    match count {
        Count::C24 | Count::C30 => said(NTSC, word),
        Count::C25 | Count::Drop30 => None,
    }
}

/// So many samples a second that a cell has some steps.
#[tactic(auto, unfolding(crate::specs::Slot::path_rate_in))]
fn path_rate(system: System, word: &str) -> Option<Value>
    ensures value { result ≡ path_rate_in system word.now }
    ensures fits { IfSome result (IsPathRate system) }
{
    let rate = between(1, MAX_TICK_RATE, word)?;
    let _grid = grid_for(system, rate)?;
    Some(Value::Number(rate))
}

/// So many ticks a sample that a step has some, and a second not too many.
#[tactic(auto, unfolding(crate::specs::Slot::path_fineness_in))]
fn path_fineness(system: System, rate: u32, word: &str) -> Option<Value>
    ensures value { result ≡ path_fineness_in system rate word.now }
    ensures fits { IfSome result (IsPathFineness system rate) }
{
    let fineness = between(1, MAX_FINENESS, word)?;
    if rate <= MAX_TICK_RATE / fineness && has_steps(system, rate, fineness) {
        Some(Value::Number(fineness))
    } else {
        None
    }
}

fn has_steps(system: System, rate: u32, fineness: u32) -> bool
    requires rate { rate ≤ MAX_TICK_RATE }
    requires least { 1 ≤ fineness }
    requires most { fineness ≤ MAX_FINENESS }
    ensures { result ≡ has_steps system rate fineness }
{
    match grid_for(system, rate) {
        None => false,
        Some(grid) => step_ticks(fineness, grid).is_some(),
    }
}

/// So many frames, as a number or as the label of that number.
#[tactic(auto, unfolding(crate::specs::Slot::frames_read))]
fn frames(count: Count, word: &str) -> Option<Value>
    ensures { result ≡ frames_read count word.now }
{
    if let Some(frames) = between(0, u32::MAX, word) {
        return Some(Value::Number(frames));
    }
    match read_text(word.as_bytes(), count) {
        Ok(label) => Some(Value::Number(number_in_day(&label))),
        Err(_) => None,
    }
}

/// Neighbouring columns, or one alone.
#[tactic(auto, unfolding(crate::specs::Slot::columns_read))]
fn columns(word: &str) -> Option<Value>
    ensures { result ≡ columns_read word.now }
{
    match word.split_once('-') {
        Some((from, to)) => {
            let first = between(1, MAX_COLUMN, from)?;
            let last = between(first, MAX_COLUMN, to)?;
            Some(Value::Columns(first, last))
        }
        None => {
            let column = between(1, MAX_COLUMN, word)?;
            Some(Value::Columns(column, column))
        }
    }
}

/// The page of a command, or that of the exit numbers.
#[tactic(auto, unfolding(crate::specs::Slot::topic_in))]
fn topic(word: &str) -> Option<Value>
    ensures { result ≡ topic_in word.now }
{
    match said(STATUSES, word) {
        Some(value) => Some(value),
        None => {
            let page = row_of(word)?;
            Some(Value::Page(page))
        }
    }
}

/// The row of the table of usages that begins with the word.
fn row_of(word: &str) -> Option<usize>
    ensures { result ≡ position (λ usage. bytes_eq word.now usage.0.now) USAGES }
{
    USAGES.iter().position(|usage| is_word(word, usage.0))
}
