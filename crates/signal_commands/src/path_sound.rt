//! A sound on its way into the cells of its best path, as an interval file has them. Read next:
//! `path_front/src/front.rt`, and then `tc_command/src/output.rt`.
ghost use Rattle.std.specs.Prelude.{◌≡◌, ◌≤◌, ◌<◌, ◌+◌, ◌^◌, ◌++◌, ◌∷◌, [], length, List, ℕ, ℤ};
ghost use Rattle.interval_file.specs.declared.header.FileVersion.{FileVersion};
ghost use Rattle.interval_file.specs.Grammar.{intervals_bytes};
ghost use Rattle.interval_file.specs.IntervalHeader.{header_bytes};
ghost use Rattle.path_front.specs.Front.{FrontStandsFor, GoesOn, IsFrontSettled};
ghost use Rattle.std.specs.Prelude.{Some};
ghost use Rattle.signal_commands.specs.KeptPath.{path_of, samples_heard, FitsPath, HasGiven, HearsSamples, IsGoing};
ghost use Rattle.signal_commands.specs.PcmPath.{path_header, IsPathFile};

use crate::listener::Listener;
use interval_file::{FileVersion, IntervalHeader, four_bytes, interval_header};
use path_front::Front;
use tc_command::Output;
use tc_job::laws::a_sound_file_has_steps_from_its_least_rate_on;
use tc_job::{PathSlicing, TrackPath};
use wave_file::WaveFormat;

/// What a best path is looked for in.
#[derive(Clone, Copy)]
pub(crate) enum PathWords {
    /// Raw samples.
    Raw(PathSlicing),
    /// A track of a sound file.
    Track(TrackPath),
}

impl PathWords {
    /// The sound of a track in this format, or of raw samples.
    fn sound(&self, format: Option<WaveFormat>) -> PathSlicing
        requires { FitsPath self.now format }
        ensures { path_of self.now format ≡ Some result }
    {
        a_sound_file_has_steps_from_its_least_rate_on();
        match (self, format) {
            (PathWords::Raw(path), _) => *path,
            (PathWords::Track(track), Some(format)) => match track.sound(format.rate) {
                Some(path) => path,
                None => unreachable!(),
            },
            (PathWords::Track(_), None) => unreachable!(),
        }
    }
}

/// The header of the file.
fn header(path: &PathSlicing) -> [u8; 12]
    ensures { result ≡ header_bytes (path_header path.now) }
{
    interval_header(&IntervalHeader {
        version: FileVersion::One,
        system: path.system(),
        tick_rate: path.tick_rate(),
    })
}

/// Sound on its way into the cells of its best path.
#[derive(Drop)]
pub(crate) struct PathSound {
    pub(crate) path: PathSlicing,
    pub(crate) front: Front,
}

impl PathSound {
    /// Before the first sample, behind the header.
    fn new(path: &PathSlicing) -> PathSound
        ensures path { result.path ≡ path.now }
        ensures going { IsGoing result }
        ensures count { samples_heard result ≡ 0 }
        ensures hears { HearsSamples result [] (header_bytes (path_header path.now)) }
    {
        PathSound {
            path: *path,
            front: Front::new(path.grid(), path.ticks(), path.least()),
        }
    }

    /// Writes all intervals that the front has.
    fn write_due<O: Output>(&mut self, out: &mut O)
        ensures all { (samples : List ℤ) (given : List ℕ) → FrontStandsFor self.old.front samples given
            → (more : List ℕ) × O.given out.old out.new (intervals_bytes FileVersion.One more)
            × HasGiven self.new.front samples (given ++ more) }
        ensures settled { IsFrontSettled self.new.front }
        ensures goes { GoesOn self.old.front self.new.front }
        ensures path { self.new.path ≡ self.old.path }
    {
        'due: while let Some(interval) = self.front.next() {
            out.gather(&four_bytes(interval));
        }
    }

    /// Takes the next sample.
    fn hear_one<O: Output>(&mut self, sample: i16, out: &mut O)
        requires going { IsGoing self.old }
        requires room { samples_heard self.old < 2 ^ 37 }
        ensures going { IsGoing self.new }
        ensures count { samples_heard self.new ≡ samples_heard self.old + 1 }
        ensures path { self.new.path ≡ self.old.path }
        ensures works { (samples : List ℤ) (written : List ℕ) → HearsSamples self.old samples written
            → (more : List ℕ) × O.given out.old out.new more
            × HearsSamples self.new (samples ++ sample ∷ []) (written ++ more) }
    {
        self.front.feed(sample);
        self.write_due(out);
    }

    /// Takes the next samples.
    fn hear_all<O: Output>(&mut self, samples: &[i16], out: &mut O)
        requires going { IsGoing self.old }
        requires room { samples_heard self.old + length samples.now ≤ 2 ^ 37 }
        ensures going { IsGoing self.new }
        ensures path { self.new.path ≡ self.old.path }
        ensures works { (before : List ℤ) (written : List ℕ) → HearsSamples self.old before written
            → (more : List ℕ) × O.given out.old out.new more
            × HearsSamples self.new (before ++ samples.now) (written ++ more) }
    {
        'samples: for at in 0..samples.len() {
            self.hear_one(samples[at], out);
        }
    }

    /// Ends the sound, and writes the intervals of its last cells.
    fn end<O: Output>(&mut self, out: &mut O)
        requires going { IsGoing self.old }
        ensures ends { (samples : List ℤ) (written : List ℕ) → HearsSamples self.old samples written
            → (more : List ℕ) × O.given out.old out.new more
            × IsPathFile self.old.path samples (written ++ more) }
    {
        self.front.finish();
        self.write_due(out);
    }
}

impl Listener for PathSound {
    ghost use Rattle.signal_commands.specs.KeptPath.{path_kind, path_well};

    type Words = PathWords;

    ghost kind = { path_kind };

    ghost hears_well = { λ s words format samples written hears. path_well s words format samples written hears };

    fn begin(words: &PathWords, format: Option<WaveFormat>) -> (PathSound, [u8; 12]) {
        let path = words.sound(format);
        (PathSound::new(&path), header(&path))
    }

    fn hear<O: Output>(&mut self, samples: &[i16], out: &mut O) {
        self.hear_all(samples, out);
    }

    fn finish<O: Output>(&mut self, out: &mut O) {
        self.end(out);
    }
}
