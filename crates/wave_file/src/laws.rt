//! The numbers that code and definitions share, as the standards give them; and what follows from the
//! definitions alone.
ghost use Rattle.std.specs.Prelude.{◌≡◌, ◌≤◌, ◌-◌, ◌^◌, ℕ, ℤ, true, false, List, [], ◌∷◌, ◌++◌};
ghost use Rattle.std.specs.Prelude.{length, Some};
ghost use Rattle.byteorder.specs.Endian.{big_number};
ghost use Rattle.wave_file.specs.declared.chunk.TheConstants as chunk;
ghost use Rattle.wave_file.specs.declared.format.Asked.{Asked};
ghost use Rattle.wave_file.specs.declared.format.WaveFormat.{WaveFormat};
ghost use Rattle.wave_file.specs.declared.format.TheConstants.{MAX_RATE};
ghost use Rattle.wave_file.specs.declared.stage.TheConstants.{MAX_BYTES, MAX_PIECE, MAX_SAMPLES};
ghost use Rattle.wave_file.specs.Chunk.{is_open, is_open_size, no_notes};
ghost use Rattle.wave_file.specs.GoesOn.{GoesOn, IsWithin};
ghost use Rattle.wave_file.specs.Grammar.{IsMadeOf, Sample, read_whole, track_of};
ghost use Rattle.wave_file.specs.StandsFor.{Decoding, StandsFor, IsDecoding, IsTold, format_in_decoding};
ghost use Rattle.wave_file.specs.Wave.{reading_of};
ghost use Rattle.tc_io.specs.Verdict.{good};

/// 2 to the 40th samples, and 2 to the 62nd bytes, 256 of them a piece; 6,250,000 samples a second.
pub fn the_limits_are_these()
    ensures samples { MAX_SAMPLES ≡ 2 ^ 40 }
    ensures bytes { MAX_BYTES ≡ 2 ^ 62 }
    ensures piece { MAX_PIECE ≡ 256 }
    ensures rate { MAX_RATE ≡ 6250000 }
{}

/// The letters of the file and of its chunks, in ASCII: `RIFF`, `RF64`, `BW64`, `WAVE`, `fmt `, `ds64`
/// and `data`.
pub fn the_letters_are_these()
    ensures riff { chunk.RIFF ≡ big_number 4 (82 ∷ 73 ∷ 70 ∷ 70 ∷ []) }
    ensures rf64 { chunk.RF64 ≡ big_number 4 (82 ∷ 70 ∷ 54 ∷ 52 ∷ []) }
    ensures bw64 { chunk.BW64 ≡ big_number 4 (66 ∷ 87 ∷ 54 ∷ 52 ∷ []) }
    ensures wave { chunk.WAVE ≡ big_number 4 (87 ∷ 65 ∷ 86 ∷ 69 ∷ []) }
    ensures fmt { chunk.FORMAT ≡ big_number 4 (102 ∷ 109 ∷ 116 ∷ 32 ∷ []) }
    ensures ds64 { chunk.SIZES ≡ big_number 4 (100 ∷ 115 ∷ 54 ∷ 52 ∷ []) }
    ensures samples { chunk.DATA ≡ big_number 4 (100 ∷ 97 ∷ 116 ∷ 97 ∷ []) }
{}

/// In RIFF these sizes of data say no length: the greatest number, those from 2,147,418,112 to
/// 2,147,483,648, and at byte 36 that of 0 if the file gives a size of at most 36. Their neighbours do.
pub fn these_sizes_tell_no_length()
    ensures greatest { chunk.NO_SIZE ≡ 2 ^ 32 - 1 }
    ensures least { chunk.LEAST_OPEN_SIZE ≡ 2 ^ 31 - 2 ^ 16 }
    ensures most { chunk.GREATEST_OPEN_SIZE ≡ 2 ^ 31 }
    ensures open { is_open_size (2 ^ 32 - 1) ≡ true }
    ensures below_greatest { is_open_size (2 ^ 32 - 2) ≡ false }
    ensures from { is_open_size 2147418112 ≡ true }
    ensures below { is_open_size 2147418111 ≡ false }
    ensures to { is_open_size 2147483648 ≡ true }
    ensures above { is_open_size 2147483649 ≡ false }
    ensures none { is_open (no_notes false 0) 36 0 ≡ true }
    ensures header { is_open (no_notes false 36) 36 0 ≡ true }
    ensures more { is_open (no_notes false 37) 36 0 ≡ false }
    ensures some { is_open (no_notes false 36) 36 1 ≡ false }
{}

/// Bytes that a decoder took are good; its format is theirs, and the samples that it gave are theirs.
pub fn a_decoder_tells_the_file()
    ensures { (d : Decoding) (bytes : List ℕ) (samples : List ℤ) → IsDecoding d → StandsFor d bytes samples
        → IsTold (reading_of d.asked bytes) (format_in_decoding d) samples good }
{}

/// What bytes show of a sound file they show whatever follows: its format, a fault and the limit stay, and
/// their samples come first.
pub fn what_a_sound_file_shows_stays()
    ensures { (asked : Asked) (bytes more : List ℕ)
        → GoesOn (reading_of asked bytes) (reading_of asked (bytes ++ more)) }
{}

/// Whatever the bytes, no more samples are read than are asked for, and before a format there are none, and the
/// input may not end.
pub fn samples_are_few_and_behind_a_format()
    ensures { (asked : Asked) (bytes : List ℕ) → IsWithin asked (reading_of asked bytes) }
{}

/// A file that was made of blocks is read as its format and the samples of a track, whatever comes before its
/// format and behind its data, and the input may end there: in RIFF if the size of its data is in it, and
/// if it says no length and nothing follows the data; in RF64 and BW64 if the size is in `ds64`.
pub fn a_file_is_read_as_it_was_written()
    ensures { (asked : Asked) (format : WaveFormat) (blocks : List (List Sample)) (bytes : List ℕ)
        → IsMadeOf asked format blocks bytes
        → reading_of asked bytes ≡ read_whole format (track_of asked.track blocks) }
{}

/// A format was judged before its data: its rate is from the least that is asked for to 6,250,000.
pub fn the_rate_of_a_format_is_judged()
    ensures { (asked : Asked) (bytes : List ℕ) (format : WaveFormat) → (reading_of asked bytes).format ≡ Some format
        → (asked.least_rate ≤ format.rate) × (format.rate ≤ 6_250_000) }
{}
