//! How values are taken from their list. A place without such a value gives what a word that is left out says.
//! Read next: `made`.
ghost use Rattle.std.specs.Prelude.{◌≡◌, IsSome};
ghost use Rattle.std.specs.List.{list_any};
ghost use Rattle.forms.specs.Held.{count_at, direction_at, has_live, is_live_value, label_at, label_in, number_or};
ghost use Rattle.forms.specs.Held.{seed_at, system_at, tolerance_at, version_at, witness_at};

use crate::value::{Said, Value};
use biphase::Profile;
use interval_file::FileVersion;
use tc_address::{Count, Direction, Label, System};
use tc_job::Witness;

/// The number at a place.
pub(crate) fn number_or(values: &[Value], place: usize, other: u32) -> u32
    ensures { result ≡ number_or values.now place other }
{
    match values.get(place) {
        Some(Value::Number(number)) => *number,
        _ => other,
    }
}

/// The seed at a place.
pub(crate) fn seed_at(values: &[Value], place: usize) -> u64
    ensures { result ≡ seed_at values.now place }
{
    match values.get(place) {
        Some(Value::Seed(seed)) => *seed,
        _ => 0,
    }
}

/// The label at a place.
pub(crate) fn label_at(values: &[Value], place: usize) -> Label
    requires { IsSome (label_in values.now place) }
    ensures { result ≡ label_at values.now place }
{
    match values.get(place) {
        Some(Value::Label(label)) => *label,
        _ => unreachable!(),
    }
}

/// The count at a place.
pub(crate) fn count_at(values: &[Value], place: usize) -> Count
    ensures { result ≡ count_at values.now place }
{
    match values.get(place) {
        Some(Value::Said(Said::Count(count))) => *count,
        _ => Count::C24,
    }
}

/// The system at a place.
pub(crate) fn system_at(values: &[Value], place: usize) -> System
    ensures { result ≡ system_at values.now place }
{
    match values.get(place) {
        Some(Value::Said(Said::System(system))) => *system,
        _ => System::F24,
    }
}

/// The direction at a place.
pub(crate) fn direction_at(values: &[Value], place: usize) -> Direction
    ensures { result ≡ direction_at values.now place }
{
    match values.get(place) {
        Some(Value::Said(Said::Direction(direction))) => *direction,
        _ => Direction::Forward,
    }
}

/// The tolerance at a place, and else the normal one.
pub(crate) fn tolerance_at(values: &[Value], place: usize) -> Profile
    ensures { result ≡ tolerance_at values.now place }
{
    match values.get(place) {
        Some(Value::Said(Said::Tolerance(profile))) => *profile,
        _ => Profile::Normal,
    }
}

/// What each word is asked for at a place, and else nothing.
pub(crate) fn witness_at(values: &[Value], place: usize) -> Witness
    ensures { result ≡ witness_at values.now place }
{
    match values.get(place) {
        Some(Value::Said(Said::Witness(witness))) => *witness,
        _ => Witness::NotAsked,
    }
}

/// The version at a place.
pub(crate) fn version_at(values: &[Value], place: usize) -> FileVersion
    ensures { result ≡ version_at values.now place }
{
    match values.get(place) {
        Some(Value::Said(Said::Version(version))) => *version,
        _ => FileVersion::One,
    }
}

/// Whether one of the words is `live`.
pub(crate) fn has_live(values: &[Value]) -> bool
    ensures { result ≡ has_live values.now }
{
    values.iter().any(|value| is_live(value))
}

fn is_live(value: &Value) -> bool
    ensures { result ≡ is_live_value value.now }
{
    match value {
        Value::Said(Said::Live) => true,
        _ => false,
    }
}
