//! The job of `labels`, made of its values. Read next: `tc_job/src/label_run.rt`.
ghost use Rattle.std.specs.Prelude.{◌≡◌, ◌≤◌};
ghost use Rattle.label_lines.specs.Way.{IsWayOf};
ghost use Rattle.tc_address.specs.declared.count.Count.{Count};
ghost use Rattle.forms.specs.Made.{asks_length, base_at, columns_at, columns_in, columns_since_in, has_ntsc};
ghost use Rattle.forms.specs.Made.{labels_in, labels_job};
ghost use Rattle.forms.specs.Made.{parting_at, parting_for, range_at, since_in, timebase_of, way_at};
ghost use Rattle.forms.specs.Reading.{AreRead};
ghost use Rattle.forms.specs.declared.table.TheConstants.{COLUMNS_SINCE, PULLED_COLUMNS_SINCE};
ghost use Rattle.forms.specs.declared.table.TheConstants.{PULLED_SINCE, SINCE};

use crate::held::{count_at, label_at, number_or};
use crate::value::{Asked, Said, Value};
use label_columns::{Columns, Parting};
use label_lines::{Timebase, Way};
use tc_address::Count;
use tc_job::{ColumnRun, Job, LabelRun};

/// `labels COUNT [ntsc] WAY`. Without columns a length is that between the labels in the first two.
pub(crate) fn labels_job(values: &[Value]) -> Job
    ensures { result ≡ labels_job values.now }
{
    let place = if has_ntsc(values, 1) { 2 } else { 1 };
    let labels = labels_of(values);
    if asks_length(values, place) {
        Job::Columns {
            run: ColumnRun {
                labels,
                columns: Columns {
                    parting: Parting::Blanks,
                    first: 1,
                    last: 2,
                },
                is_length: true,
            },
        }
    } else {
        Job::Labels { run: labels }
    }
}

/// `labels`
#[tactic(auto, unfolding(crate::specs::Made::labels_in))]
fn labels_of(values: &[Value]) -> LabelRun
    ensures { result ≡ labels_in values.now }
{
    let place = if has_ntsc(values, 1) { 2 } else { 1 };
    LabelRun::new(base_at(values, 0), way_at(values, place))
}

/// `labels COUNT since LABEL`
#[tactic(auto, unfolding(crate::specs::Made::since_in), using(crate::proofs::JobsInRange::since_label, crate::proofs::JobsInRange::since_valid))]
pub(crate) fn labels_since(values: &[Value]) -> LabelRun
    requires { AreRead SINCE.now values.now }
    ensures { result ≡ since_in values.now 2 }
{
    LabelRun::new(base_at(values, 0), Way::Since(label_at(values, 2)))
}

/// `labels COUNT ntsc since LABEL`
#[tactic(auto, unfolding(crate::specs::Made::since_in), using(crate::proofs::JobsInRange::pulled_since_label, crate::proofs::JobsInRange::pulled_since_valid))]
pub(crate) fn pulled_labels_since(values: &[Value]) -> LabelRun
    requires { AreRead PULLED_SINCE.now values.now }
    ensures { result ≡ since_in values.now 3 }
{
    LabelRun::new(base_at(values, 0), Way::Since(label_at(values, 3)))
}

/// `labels COUNT [ntsc] column|csv COLUMNS WAY`
#[tactic(auto, unfolding(crate::specs::Made::columns_in))]
pub(crate) fn columns_of(values: &[Value]) -> ColumnRun
    ensures { result ≡ columns_in values.now }
{
    let place = if has_ntsc(values, 1) { 2 } else { 1 };
    ColumnRun {
        labels: LabelRun::new(base_at(values, 0), way_at(values, place + 2)),
        columns: columns_at(values, place),
        is_length: asks_length(values, place + 2),
    }
}

/// `labels COUNT column|csv COLUMNS since LABEL`
#[tactic(auto, unfolding(crate::specs::Made::since_in, crate::specs::Made::columns_since_in), using(crate::proofs::JobsInRange::columns_since_label, crate::proofs::JobsInRange::columns_since_valid))]
pub(crate) fn columns_since(values: &[Value]) -> ColumnRun
    requires { AreRead COLUMNS_SINCE.now values.now }
    ensures { result ≡ columns_since_in values.now 1 }
{
    ColumnRun {
        labels: LabelRun::new(base_at(values, 0), Way::Since(label_at(values, 4))),
        columns: columns_at(values, 1),
        is_length: false,
    }
}

/// `labels COUNT ntsc column|csv COLUMNS since LABEL`
#[tactic(auto, unfolding(crate::specs::Made::since_in, crate::specs::Made::columns_since_in), using(crate::proofs::JobsInRange::pulled_columns_since_label, crate::proofs::JobsInRange::pulled_columns_since_valid))]
pub(crate) fn pulled_columns_since(values: &[Value]) -> ColumnRun
    requires { AreRead PULLED_COLUMNS_SINCE.now values.now }
    ensures { result ≡ columns_since_in values.now 2 }
{
    ColumnRun {
        labels: LabelRun::new(base_at(values, 0), Way::Since(label_at(values, 5))),
        columns: columns_at(values, 2),
        is_length: false,
    }
}

/// The columns that two words at a place say: what parts them, and which they are.
fn columns_at(values: &[Value], place: usize) -> Columns
    requires { place ≤ 2 }
    ensures { result ≡ columns_at values.now place }
{
    let (first, last) = range_at(values, place + 1);
    Columns {
        parting: parting_for(count_at(values, 0), parting_at(values, place)),
        first,
        last,
    }
}

/// What parts columns, by the word at a place.
fn parting_at(values: &[Value], place: usize) -> Parting
    ensures { result ≡ parting_at values.now place }
{
    match values.get(place) {
        Some(Value::Said(Said::Parting(parting))) => *parting,
        _ => Parting::Blanks,
    }
}

/// A semicolon belongs to the labels of drop-frame counting, so it parts no columns of theirs.
fn parting_for(count: Count, parting: Parting) -> Parting
    ensures { result ≡ parting_for count parting }
{
    match (count, parting) {
        (Count::Drop30, Parting::CommasAndSemicolons) => Parting::Commas,
        _ => parting,
    }
}

/// The first and the last column, by the word at a place.
fn range_at(values: &[Value], place: usize) -> (u32, u32)
    ensures { result ≡ range_at values.now place }
{
    match values.get(place) {
        Some(Value::Columns(first, last)) => (*first, *last),
        _ => (1, 1),
    }
}

/// What is asked of labels by the word at a place, with the words after it.
fn way_at(values: &[Value], place: usize) -> Way
    requires { place ≤ 4 }
    ensures value { result ≡ way_at values.now place }
    ensures valid { (count : Count) → IsWayOf count result }
{
    match values.get(place) {
        Some(Value::Said(Said::Asked(asked))) => match asked {
            Asked::Number => Way::Number,
            Asked::Label => Way::Label,
            Asked::Seconds => Way::Seconds,
            Asked::Length => Way::Number,
            Asked::Plus => Way::Plus(number_or(values, place + 1, 0)),
            Asked::Minus => Way::Minus(number_or(values, place + 1, 0)),
            Asked::To => Way::To(base_at(values, place + 1)),
        },
        _ => Way::Number,
    }
}

/// Whether a length is asked by the word at a place.
fn asks_length(values: &[Value], place: usize) -> bool
    ensures { result ≡ asks_length values.now place }
{
    match values.get(place) {
        Some(Value::Said(Said::Asked(Asked::Length))) => true,
        _ => false,
    }
}

/// The count at a place, pulled down if `ntsc` comes after it.
pub(crate) fn base_at(values: &[Value], place: usize) -> Timebase
    requires { place ≤ 5 }
    ensures { result ≡ base_at values.now place }
{
    timebase_of(count_at(values, place), has_ntsc(values, place + 1))
}

fn has_ntsc(values: &[Value], place: usize) -> bool
    ensures { result ≡ has_ntsc values.now place }
{
    match values.get(place) {
        Some(Value::Said(Said::Ntsc)) => true,
        _ => false,
    }
}

/// How labels of a count run, pulled down or not: 25 is never pulled down, and drop-frame counting always is.
fn timebase_of(count: Count, is_pulled: bool) -> Timebase
    ensures { result ≡ timebase_of count is_pulled }
{
    match (count, is_pulled) {
        (Count::C24, false) => Timebase::F24,
        (Count::C24, true) => Timebase::PulledDown24,
        (Count::C25, _) => Timebase::F25,
        (Count::C30, false) => Timebase::F30,
        (Count::C30, true) => Timebase::PulledDown30,
        (Count::Drop30, _) => Timebase::Drop30,
    }
}
