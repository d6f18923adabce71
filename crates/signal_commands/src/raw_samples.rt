//! Raw samples: two bytes each, the less significant one first. Read next: `listener`.
ghost use Rattle.std.specs.Prelude.{◌≡◌, ◌≤◌, ◌<◌, ◌+◌, ◌*◌, [], length, take, IfSome, IfNone};
ghost use Rattle.pcm_front.specs.Samples.{samples_of};
ghost use Rattle.signal_commands.specs.KeptRaw.{raw_kind};
ghost use Rattle.signal_commands.specs.KeptListening.{ContainerKind};

use crate::brought::{Brought, ROOM, Room};
use crate::container::Container;
use crate::pcm_ltc::MAX_SAMPLES;
use byteorder::{ByteOrder, LittleEndian};
use tc_command::{Halt, InputFault};

/// Raw samples on their way.
#[derive(Drop)]
pub(crate) struct RawSamples {
    /// How many there were so far.
    samples: u64,
}

impl RawSamples {
    /// Before the first byte.
    pub(crate) fn new() -> RawSamples
        ensures { ContainerKind.holds raw_kind result [] }
    {
        RawSamples { samples: 0 }
    }

    /// Reads whole samples at the front of the bytes into the room, as many as fit and may still come, and answers
    /// how many: none past the limit.
    fn read(&mut self, bytes: &[u8], room: &mut Room) -> Option<usize>
        requires within { self.old.samples ≤ MAX_SAMPLES }
        requires some { 2 ≤ length bytes.now }
        ensures some { IfSome result (λ count. (1 ≤ count) × (2 * count ≤ length bytes.now)
            × (count ≤ ROOM)) }
        ensures read { IfSome result (λ count. take count room.new ≡ samples_of (take (2 * count) bytes.now)) }
        ensures samples { IfSome result (λ count. (self.new.samples ≡ self.old.samples + count)
            × (self.new.samples ≤ MAX_SAMPLES)) }
        ensures limit { IfNone result (self.old.samples ≡ MAX_SAMPLES) }
    {
        if self.samples == MAX_SAMPLES {
            return None;
        }
        let count = fewer(bytes.len() / 2, MAX_SAMPLES - self.samples);
        read_samples(&bytes[..2 * count], &mut room[..count]);
        self.samples += count as u64;
        Some(count)
    }
}

/// So many samples, but no more than may come or than there is room for.
fn fewer(samples: usize, left: u64) -> usize
    requires some { 1 ≤ samples }
    requires left { 1 ≤ left }
    ensures some { 1 ≤ result }
    ensures samples { result ≤ samples }
    ensures left { result ≤ left }
    ensures room { result ≤ ROOM }
{
    let most = if samples < ROOM { samples } else { ROOM };
    if left < most as u64 {
        left as usize
    } else {
        most
    }
}

/// Reads samples into places, of which there are as many.
fn read_samples(bytes: &[u8], places: &mut [i16])
    requires { length bytes.now ≡ 2 * length places.old }
    ensures { places.new ≡ samples_of bytes.now }
{
    LittleEndian::read_i16_into(bytes, places);
}

impl Container for RawSamples {
    ghost use Rattle.signal_commands.specs.KeptRaw.{raw_is_good, raw_kind};

    type Asked = ();

    ghost kind = { raw_kind };

    ghost is_good = { λ s bytes holds. raw_is_good s bytes holds };

    fn take(&mut self, bytes: &[u8], room: &mut Room) -> Brought {
        if bytes.len() == 1 {
            return Brought::Few;
        }
        match self.read(bytes, room) {
            Some(samples) => Brought::Samples {
                bytes: 2 * samples,
                samples,
            },
            None => Brought::Halt(Halt::Limit),
        }
    }

    fn cut_off(&self, _bytes: &[u8]) -> Option<InputFault> {
        Some(InputFault::HalfSample(2 * self.samples + 1))
    }

    fn finish(&self) -> Result<(), InputFault> {
        Ok(())
    }
}
