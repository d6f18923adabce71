//! How a tape is read, in numbers. Read next: `tape_kept`.
ghost use Rattle.std.specs.Prelude.{◌≡◌, Bool, Some, IfSome};
ghost use Rattle.tape_reader.specs.declared.settings.TapeSettings.{TapeSettings};
ghost use Rattle.direction_reader.specs.declared.witness.Witness.{Witness};
ghost use Rattle.tc_c.specs.CEvent.{bit};
ghost use Rattle.tc_c.specs.CSettings.{witness_number, MeansTape};

use crate::settings::{profile_of, system_of};
use direction_reader::Witness;
use tape_reader::TapeSettings;

/// How a tape is read, in numbers. Others than these mean nothing.
#[repr(C)]
#[derive(Clone, Copy)]
pub struct TcTapeSettings {
    /// Frames a second: 24, 25 or 30.
    pub system: u32,
    /// 0 normal, 1 worn, 2 rough.
    pub tolerance: u32,
    /// What each word is asked for: 0 nothing, 1 a witness beside it, 2 a witness or the word that follows it,
    /// 3 a word that counts on with it.
    pub firm: u32,
}

impl TcTapeSettings {
    /// What they mean, where they mean settings.
    pub(crate) fn meaning(&self) -> Option<TapeSettings>
        ensures means { IfSome result (MeansTape self.now) }
        ensures only { (s : TapeSettings) → MeansTape self.now s → result ≡ Some s }
    {
        Some(TapeSettings {
            system: system_of(self.system)?,
            profile: profile_of(self.tolerance)?,
            witness: witness_of(self.firm)?,
        })
    }
}

/// What words are asked for, where the number says it.
fn witness_of(number: u32) -> Option<Witness>
    ensures means { IfSome result (λ w. witness_number w ≡ number) }
    ensures only { (w : Witness) → witness_number w ≡ number → result ≡ Some w }
{
    match number {
        0 => Some(Witness::NotAsked),
        1 => Some(Witness::Asked),
        2 => Some(Witness::Consecutive),
        3 => Some(Witness::Counted),
        _ => None,
    }
}

/// Whether a flag is set, where the number says it.
pub(crate) fn flag_of(number: u32) -> Option<bool>
    ensures means { IfSome result (λ flag. bit flag ≡ number) }
    ensures only { (flag : Bool) → bit flag ≡ number → result ≡ Some flag }
{
    match number {
        0 => Some(false),
        1 => Some(true),
        _ => None,
    }
}
