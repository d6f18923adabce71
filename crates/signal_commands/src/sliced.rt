//! Sound sliced into the distances of its crossings, as an interval file has them. Read next:
//! `pcm_front/src/slicer.rt`, and then `spelling`.
ghost use Rattle.std.specs.Prelude.{◌≡◌, ◌+◌, ◌*◌, ◌≤◌, ◌^◌, ◌++◌, ℤ, ℕ, List, [], length};
ghost use Rattle.interval_file.specs.declared.header.FileVersion.{FileVersion};
ghost use Rattle.interval_file.specs.IntervalHeader.{IsTickRate};
ghost use Rattle.pcm_front.specs.Pace.{IsPace};
ghost use Rattle.pcm_front.specs.StandsFor as pcm;
ghost use Rattle.pcm_front.specs.StandsFor.{settings_of, tick_of};
ghost use Rattle.signal_commands.specs.KeptSliced.{AreDue, cut_header, cut_pace, cut_settings, FitsCut};

use crate::listener::Listener;
use crate::spelling::spell;
use interval_file::{FileVersion, IntervalHeader, interval_header};
use pcm_front::{Pace, Slicer};
use tc_address::System;
use tc_command::Output;
use tc_job::{Slicing, WaveSlicing};
use wave_file::WaveFormat;

/// The ticks of a sample of a sound file.
pub(crate) const TICKS: u32 = 16;

/// What is sliced, and how.
#[derive(Clone, Copy)]
pub(crate) enum Cut {
    /// Raw samples.
    Raw(Slicing),
    /// A track of a sound file, from its first sample on.
    Track(WaveSlicing),
}

impl Cut {
    /// A slicer before the first sample.
    fn slicer(&self) -> Slicer
        ensures settings { settings_of result ≡ cut_settings self.now }
        ensures fine { (settings_of result).fineness ≤ 64 }
        ensures tick { tick_of result ≡ 0 }
        ensures stands { pcm.StandsFor result [] }
    {
        match self {
            Cut::Raw(s) => Slicer::summing(s.fineness(), s.threshold(), s.smooth()),
            Cut::Track(w) => Slicer::from_the_start(TICKS, w.threshold(), w.smooth()),
        }
    }

    /// The header of the file, of a sound in this format.
    fn header(&self, format: Option<WaveFormat>) -> IntervalHeader
        requires { FitsCut self.now format }
        ensures value { result ≡ cut_header self.now format }
        ensures valid { IsTickRate result.tick_rate }
    {
        match (self, format) {
            (Cut::Raw(s), _) => header_at(s.system(), s.tick_rate()),
            (Cut::Track(w), Some(format)) => header_at(w.system(), TICKS * format.rate),
            (Cut::Track(_), None) => unreachable!(),
        }
    }

    /// When the intervals of a distance are written.
    fn pace(&self, tick_rate: u32) -> Pace
        ensures value { result ≡ cut_pace self.now tick_rate }
        ensures valid { IsPace result }
    {
        match self {
            Cut::Raw(s) => s.pace(),
            Cut::Track(w) => w.pace(tick_rate),
        }
    }
}

/// The header of a file of this system and tick rate.
fn header_at(system: System, tick_rate: u32) -> IntervalHeader
    requires { IsTickRate tick_rate }
    ensures value { result ≡ record { version = FileVersion.One; system = system; tick_rate = tick_rate } }
    ensures valid { IsTickRate result.tick_rate }
{
    IntervalHeader {
        version: FileVersion::One,
        system,
        tick_rate,
    }
}

/// Sound on its way into the distances of its crossings.
#[derive(Drop)]
pub(crate) struct SlicedSound {
    slicer: Slicer,
    pace: Pace,
}

/// Slices samples, and spells the intervals that they bring.
fn slice<O: Output>(slicer: &mut Slicer, pace: Pace, samples: &[i16], out: &mut O)
    requires pace { IsPace pace }
    requires room { tick_of slicer.old + (settings_of slicer.old).fineness * length samples.now ≤ 2 ^ 62 }
    ensures settings { settings_of slicer.new ≡ settings_of slicer.old }
    ensures stands { (front : List ℤ) → pcm.StandsFor slicer.old front
        → pcm.StandsFor slicer.new (front ++ samples.now) }
    ensures all { (front : List ℤ) → pcm.StandsFor slicer.old front
        → (due : List ℕ) × AreDue pace (settings_of slicer.old) front samples.now due × O.given out.old out.new due }
{
    let mut at = 0;
    'samples: while at < samples.len() {
        let (count, intervals) = slicer.intervals_of_samples(pace, &samples[at..]);
        at += count;
        spell(intervals, out);
    }
}

impl Listener for SlicedSound {
    ghost use Rattle.signal_commands.specs.KeptSliced.{sliced_kind, sliced_well};

    type Words = Cut;

    ghost kind = { sliced_kind };

    ghost hears_well = { λ s cut format samples written hears. sliced_well s cut format samples written hears };

    fn begin(words: &Cut, format: Option<WaveFormat>) -> (SlicedSound, [u8; 12]) {
        let header = words.header(format);
        let sound = SlicedSound {
            slicer: words.slicer(),
            pace: words.pace(header.tick_rate),
        };
        (sound, interval_header(&header))
    }

    fn hear<O: Output>(&mut self, samples: &[i16], out: &mut O) {
        slice(&mut self.slicer, self.pace, samples, out);
    }

    fn finish<O: Output>(&mut self, _out: &mut O) {}
}
