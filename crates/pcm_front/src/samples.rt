//! Samples in a row, as numbers or as bytes. Read next: `window`.
ghost use Rattle.std.specs.Prelude.{◌≡◌, ◌<◌, ℤ, pos, List, length, get_or};
ghost use Rattle.pcm_front.specs.Samples.{samples_of};

use byteorder::{ByteOrder, LittleEndian};

/// Some samples, each of which can be read.
pub(crate) trait Samples {
    /// The samples.
    ghost list: { Self → List ℤ };

    /// How many they are.
    fn count(&self) -> usize
        ensures { result ≡ length (list self.now) };

    /// The one in a place.
    fn at(&self, place: usize) -> i16
        requires { place < length (list self.now) }
        ensures { result ≡ get_or (list self.now) place (pos 0) };
}

/// Samples as numbers.
#[derive(Drop)]
pub(crate) struct Numbers<'a> {
    pub(crate) samples: &'a [i16],
}

impl<'a> Samples for Numbers<'a> {
    ghost list = { λ s. s.samples.now };

    fn count(&self) -> usize {
        self.samples.len()
    }

    fn at(&self, place: usize) -> i16 {
        self.samples[place]
    }
}

/// Samples as bytes, the less significant one of each first. What is left of an odd number of bytes is
/// none.
#[derive(Drop)]
pub(crate) struct Bytes<'a> {
    pub(crate) bytes: &'a [u8],
}

impl<'a> Samples for Bytes<'a> {
    ghost list = { λ s. samples_of s.bytes.now };

    #[tactic(auto, using(crate::proofs::InBytes::length_samples_of))]
    fn count(&self) -> usize {
        self.bytes.len() / 2
    }

    fn at(&self, place: usize) -> i16 {
        let behind = &self.bytes[place..];
        LittleEndian::read_i16(&behind[place..])
    }
}
