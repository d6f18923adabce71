//! Clipping spikes and clicks. Read next: `hold`.
ghost use Rattle.std.specs.Prelude.{◌≡◌, ℕ, ◌+◌, ◌^◌, ◌<◌, ◌≤◌, ℤ, unsigned_abs, List, [], ◌∷◌};
ghost use Rattle.path_front.specs.Clip.{clip_at, clipped_to, sizes_of};
ghost use Rattle.path_front.specs.KeptSizes.{SizesStandFor};

use crate::sizes::Sizes;

/// At how many times the mean size a sample is clipped at most, however high the peak.
pub const CLIP: u32 = 3;

/// A sample that is no greater than this, or what is left of it.
fn clipped_to(most: u32, sample: i32) -> i32
    requires most { most ≤ 2 ^ 17 }
    requires sample { unsigned_abs sample ≤ 2 ^ 15 }
    ensures value { result ≡ clipped_to most sample }
    ensures size { unsigned_abs result ≤ 2 ^ 15 }
{
    if sample.unsigned_abs() <= most {
        sample
    } else if 0 <= sample {
        most as i32
    } else {
        -(most as i32)
    }
}

/// Takes the size of the next sample, and gives what clipping leaves of it behind samples of this peak.
pub(crate) fn clip(sizes: &mut Sizes, peak: u32, sample: i16) -> i32
    requires peak { peak ≤ 2 ^ 15 }
    requires room { sizes.old.count < 2 ^ 40 }
    ensures value { (samples : List ℤ) → SizesStandFor sizes.old (sizes_of samples)
        → result ≡ clipped_to (clip_at peak (sample ∷ samples)) sample }
    ensures stands { (samples : List ℤ) → SizesStandFor sizes.old (sizes_of samples)
        → SizesStandFor sizes.new (sizes_of (sample ∷ samples)) }
    ensures count { sizes.new.count ≡ sizes.old.count + 1 }
    ensures size { unsigned_abs result ≤ 2 ^ 15 }
{
    let sample = i32::from(sample);
    sizes.push(sample.unsigned_abs());
    let most = sizes
        .mean_times(1)
        .max(sizes.mean_times(CLIP).min(9 * peak / 8));
    clipped_to(most, sample)
}
