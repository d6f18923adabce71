//! Settings in numbers. Read next: `write`.
ghost use Rattle.std.specs.Prelude.{◌≡◌, ◌≤◌, Some, IfSome};
ghost use Rattle.biphase.specs.declared.profile.Profile.{Profile};
ghost use Rattle.pcm_front.specs.declared.pace.Pace.{Pace};
ghost use Rattle.pcm_front.specs.declared.threshold.Threshold.{Threshold};
ghost use Rattle.pcm_front.specs.Level.{least_of};
ghost use Rattle.pcm_front.specs.Pace.{IsPace};
ghost use Rattle.tc_address.specs.declared.system.System.{System};
ghost use Rattle.sound_reader.specs.declared.settings.SoundSettings.{SoundSettings};
ghost use Rattle.sound_reader.specs.Settings.{AreInRange};
ghost use Rattle.tc_c.specs.CSettings.{follows_number, pace_number, system_number, tolerance_number, Means};

use biphase::Profile;
use pcm_front::{Pace, Threshold};
use sound_reader::SoundSettings;
use tc_address::System;

/// Settings in numbers. Others than these mean nothing.
#[repr(C)]
#[derive(Clone, Copy)]
pub struct TcSettings {
    /// Frames a second: 24, 25 or 30.
    pub system: u32,
    /// 0 normal, 1 worn, 2 rough.
    pub tolerance: u32,
    /// Whether the threshold follows the level: 0 not, 1 at a half of it, 2 at a quarter.
    pub follows: u32,
    /// The threshold, or the least, from 1 to 524,272.
    pub threshold: u32,
    /// Ticks of a sample, from 1 to 64.
    pub fineness: u32,
    /// Samples in a sum, from 1 to 16.
    pub smooth: u32,
    /// 0 where an interval is read when it has ended, or else the ticks of the pieces in which it is read as
    /// it passes, up to 16,777,215.
    pub pace: u32,
}

impl TcSettings {
    /// What they mean, where they mean settings in range.
    pub(crate) fn meaning(&self) -> Option<SoundSettings>
        ensures range { IfSome result AreInRange }
        ensures means { IfSome result (Means self.now) }
        ensures only { (s : SoundSettings) → AreInRange s → Means self.now s → result ≡ Some s }
    {
        let settings = SoundSettings {
            system: system_of(self.system)?,
            profile: profile_of(self.tolerance)?,
            threshold: threshold_of(self.follows, self.threshold)?,
            fineness: self.fineness,
            smooth: self.smooth,
            pace: pace_of(self.pace),
        };
        if settings.are_in_range() {
            Some(settings)
        } else {
            None
        }
    }
}

pub(crate) fn system_of(number: u32) -> Option<System>
    ensures means { IfSome result (λ s. system_number s ≡ number) }
    ensures only { (s : System) → system_number s ≡ number → result ≡ Some s }
{
    match number {
        24 => Some(System::F24),
        25 => Some(System::F25),
        30 => Some(System::F30),
        _ => None,
    }
}

pub(crate) fn profile_of(number: u32) -> Option<Profile>
    ensures means { IfSome result (λ p. tolerance_number p ≡ number) }
    ensures only { (p : Profile) → tolerance_number p ≡ number → result ≡ Some p }
{
    match number {
        0 => Some(Profile::Normal),
        1 => Some(Profile::Worn),
        2 => Some(Profile::Rough),
        _ => None,
    }
}

pub(crate) fn threshold_of(follows: u32, least: u32) -> Option<Threshold>
    ensures means { IfSome result (λ t. (follows_number t ≡ follows) × (least_of t ≡ least)) }
    ensures only { (t : Threshold) → follows_number t ≡ follows → least_of t ≡ least → result ≡ Some t }
{
    match follows {
        0 => Some(Threshold::Fixed(least)),
        1 => Some(Threshold::Follow(least)),
        2 => Some(Threshold::Deep(least)),
        _ => None,
    }
}

pub(crate) fn pace_of(ticks: u32) -> Pace
    ensures means { pace_number result ≡ ticks }
    ensures only { (p : Pace) → IsPace p → pace_number p ≡ ticks → result ≡ p }
{
    if ticks == 0 {
        Pace::Ended
    } else {
        Pace::Passing(ticks)
    }
}
