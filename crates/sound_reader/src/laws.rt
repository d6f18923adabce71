//! What follows from the definitions alone, and the numbers that code and definitions share.
ghost use Rattle.std.specs.Prelude.{◌≡◌, ◌^◌, ℤ, List, sum};
ghost use Rattle.direction_reader.specs.declared.event.Event.{Event};
ghost use Rattle.direction_reader.specs.ListEvents.{AreEvents};
ghost use Rattle.pcm_front.specs.Pace.{intervals_at};
ghost use Rattle.sound_reader.specs.declared.reader.TheConstants.{MAX_SAMPLES};
ghost use Rattle.sound_reader.specs.Settings.{slicing, AreInRange};
ghost use Rattle.sound_reader.specs.Sound.{intervals_of, AllElseIsLater, IsSettled, SoundState, StandsFor};

use direction_reader::laws::{a_reader_gives_the_events_of_its_list, events_of_a_front_come_first};
use pcm_front::laws::intervals_of_a_front_come_first;

/// A reader takes 2 to the 50th samples at most.
pub fn the_limits_are_these()
    ensures samples { MAX_SAMPLES ≡ 2 ^ 50 }
{}

/// If no interval waits, what a reader has given are the events of the intervals of all samples that it
/// was given, under its settings.
pub fn what_is_given_are_the_events_of_the_samples()
    ensures { (s : SoundState) (samples : List ℤ) (events : List Event) → StandsFor s samples events → IsSettled s
        → AreEvents s.settings.system s.settings.profile
        (intervals_at s.settings.pace (slicing s.settings) samples) events }
{
    a_reader_gives_the_events_of_its_list();
}

/// All that a reader has not told ends at the sum of the intervals that it has read, or later, whatever samples
/// follow: if no interval waits, that is the sum of all intervals of its samples.
pub fn what_is_told_later_ends_later()
    ensures later { (s : SoundState) → AreInRange s.settings → AllElseIsLater s s.reader.tick }
    ensures settled { (s : SoundState) (samples : List ℤ) (told : List Event) → StandsFor s samples told
        → IsSettled s → s.reader.tick ≡ sum (intervals_of s.settings samples) }
{
    a_reader_gives_the_events_of_its_list();
    events_of_a_front_come_first();
    intervals_of_a_front_come_first();
}
