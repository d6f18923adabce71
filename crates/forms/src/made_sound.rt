//! The jobs of sound, made of their values. Read next: `made_labels`.
ghost use Rattle.std.specs.Prelude.{◌≡◌, slice_get};
ghost use Rattle.forms.specs.Made.{path_slicing_in, slicing_in, threshold_of, track_path_in, wave_slicing_in};
ghost use Rattle.forms.specs.Held.{number_or};
ghost use Rattle.forms.specs.Reading.{AreRead};
ghost use Rattle.forms.specs.declared.table.TheConstants.{LEVEL, PCM, PCM_PATH, WAV, WAV_PATH};

use crate::held::{has_live, number_or, system_at};
use crate::value::{Said, Value};
use pcm_front::Threshold;
use tc_job::{PathSlicing, Slicing, SoundLevel, TrackPath, WaveSlicing, grid_for, step_ticks};

/// `pcm-ltc`
#[tactic(auto, unfolding(crate::specs::Made::slicing_in), using(crate::proofs::SoundInRange::pcm_least, crate::proofs::SoundInRange::pcm_valid))]
pub(crate) fn slicing_of(values: &[Value]) -> Slicing
    requires { AreRead PCM.now values.now }
    ensures { result ≡ slicing_in values.now }
{
    let smooth = number_or(values, 5, 1);
    let least = smooth * number_or(values, 2, 0);
    let threshold = threshold_of(Threshold::Fixed(least), least, values, 4);
    let fineness = number_or(values, 3, 1);
    let rate = number_or(values, 1, 0);
    Slicing::new(
        system_at(values, 0),
        rate,
        threshold,
        fineness,
        smooth,
        has_live(values),
    )
}

/// `wav-ltc`
#[tactic(auto, unfolding(crate::specs::Made::wave_slicing_in), using(crate::proofs::SoundInRange::wav_least, crate::proofs::SoundInRange::wav_valid))]
pub(crate) fn wave_slicing_of(values: &[Value]) -> WaveSlicing
    requires { AreRead WAV.now values.now }
    ensures { result ≡ wave_slicing_in values.now }
{
    let smooth = number_or(values, 3, 1);
    let least = smooth * number_or(values, 2, 0);
    let threshold = threshold_of(Threshold::Follow(least), least, values, 4);
    let track = number_or(values, 1, 0);
    WaveSlicing::new(
        system_at(values, 0),
        track,
        threshold,
        smooth,
        has_live(values),
    )
}

/// A threshold of this level by the word that says how it follows the level, and without the word another one.
fn threshold_of(other: Threshold, least: u32, values: &[Value], place: usize) -> Threshold
    ensures { result ≡ threshold_of other least (slice_get values.now place) }
{
    match values.get(place) {
        Some(Value::Said(Said::Follow)) => Threshold::Follow(least),
        Some(Value::Said(Said::Deep)) => Threshold::Deep(least),
        _ => other,
    }
}

/// `pcm-ltc` with `path`
#[tactic(auto, unfolding(crate::specs::Made::path_slicing_in), using(crate::proofs::SoundInRange::path_rate, crate::proofs::SoundInRange::path_fineness, crate::proofs::SoundInRange::path_valid))]
pub(crate) fn path_slicing_of(values: &[Value]) -> PathSlicing
    requires { AreRead PCM_PATH.now values.now }
    ensures { result ≡ path_slicing_in values.now }
{
    let system = system_at(values, 0);
    let rate = number_or(values, 1, 0);
    let fineness = number_or(values, 3, 0);
    let Some(grid) = grid_for(system, rate) else {
        unreachable!()
    };
    let Some(ticks) = step_ticks(fineness, grid) else {
        unreachable!()
    };
    PathSlicing::new(system, rate, number_or(values, 2, 0), fineness, grid, ticks)
}

/// `wav-ltc` with `path`
#[tactic(auto, unfolding(crate::specs::Made::track_path_in), using(crate::proofs::SoundInRange::track_path_valid))]
pub(crate) fn track_path_of(values: &[Value]) -> TrackPath
    requires { AreRead WAV_PATH.now values.now }
    ensures { result ≡ track_path_in values.now }
{
    TrackPath::new(
        system_at(values, 0),
        number_or(values, 1, 0),
        number_or(values, 2, 0),
    )
}

/// `ltc-pcm`
#[tactic(auto, using(crate::proofs::SoundInRange::level_valid))]
pub(crate) fn level_of(values: &[Value]) -> SoundLevel
    requires { AreRead LEVEL.now values.now }
    ensures { result ≡ number_or values.now 0 0 }
{
    SoundLevel::new(number_or(values, 0, 0) as u16)
}
