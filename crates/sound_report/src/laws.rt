//! What is sliced of a sound with a margin is reported as the tape.
ghost use Rattle.std.specs.Prelude.{◌≡◌, ◌+◌, ◌*◌, ℕ, List, ◌∷◌, true, false, Some, take, drop};
ghost use Rattle.biphase.specs.declared.cell.Cell.{Cell};
ghost use Rattle.biphase.specs.declared.profile.Profile.{Profile};
ghost use Rattle.biphase.specs.Chain.{bits};
ghost use Rattle.direction_reader.specs.ListEvents.{duration};
ghost use Rattle.direction_reader.specs.Played.{Played, AreSpelled, bits_of_words};
ghost use Rattle.frame_commands.specs.LtcSpans.{spanned_recording};
ghost use Rattle.interval_commands.specs.LtcRead.{report};
ghost use Rattle.interval_engine.specs.Along.{along_intervals};
ghost use Rattle.interval_file.specs.declared.header.IntervalHeader.{IntervalHeader};
ghost use Rattle.pcm_front.specs.Distance.{distances, distances_from_start};
ghost use Rattle.pcm_front.specs.Samples.{samples_of};
ghost use Rattle.pcm_front.specs.Sums.{sums};
ghost use Rattle.signal_commands.specs.PcmLtc.{along_samples, settings_for, sliced_header};
ghost use Rattle.signal_commands.specs.WavLtc.{along_sound_file, track_header, track_settings};
ghost use Rattle.sound_report.specs.OneSpan.{CountOn, KeepPace, TellsOneSpan};
ghost use Rattle.sound_report.specs.TwoRuns.{report_under, Piped, SoundsWords, TrackSoundsWords};
ghost use Rattle.sound_report.specs.Whole.{AreWhole};
ghost use Rattle.sound_report.specs.WordsReport.{ReportsWords};
ghost use Rattle.sound_report.specs.WordsSpans.{TellsSpans};
ghost use Rattle.tape_sound.specs.Heard.{BeginsLate, FitsAFile, FitsBehindASilence, HasMargin};
ghost use Rattle.tc_command.specs.Meaning.{Meaning};
ghost use Rattle.tc_job.specs.declared.flight.Flight.{Flight};
ghost use Rattle.tc_job.specs.declared.witness.Witness.TheVariants.{NotAsked};
ghost use Rattle.tc_job.specs.declared.job.Job.{Job};
ghost use Rattle.tc_job.specs.Slicing.{Slices, IsSlicing};
ghost use Rattle.tc_job.specs.WaveSlicing.{SlicesWave};
ghost use Rattle.wave_file.specs.declared.format.WaveFormat.{WaveFormat};
ghost use Rattle.wave_file.specs.Wave.{reading_of};
ghost use Rattle.signal_commands.specs.WavLtc.{asked_by};

use flywheel::laws::the_next_word_fits;
use interval_file::laws::a_file_is_read_as_it_was_written;
use pcm_front::laws::short_distances_are_whole;
use tape_sound::laws::{
    a_silence_before_the_tape_costs_no_word, noise_below_the_margin_costs_no_word,
};
use tape_spans::laws::the_open_span_has_the_last_line;
use wave_file::laws::the_rate_of_a_format_is_judged;

/// `pcm-ltc` and then a report: of a sound whose sums have a margin for a tape, the report under the
/// tolerance of that margin has a line for each word of the tape, and none beside. Its ticks run from the
/// first transition.
pub fn what_is_sliced_of_a_margin_is_reported()
    ensures { (profile : Profile) (s : Slices) (tape : List Cell) (words : List Played) (sound written text : List ℕ)
        → IsSlicing s → (margin : HasMargin profile s.fineness s.threshold tape (sums s.smooth (samples_of sound)))
        → FitsAFile margin.delay tape
        → AreWhole s.live s.system (s.rate * s.fineness) (settings_for s) (samples_of sound)
        → bits tape ≡ false ∷ true ∷ bits_of_words words → AreSpelled s.system words
        → Meaning.output (along_samples s) sound written
        → Meaning.output (along_intervals (report profile)) written text
        → ReportsWords (sliced_header s) margin.delay (duration (take 2 tape)) tape words
        (distances s.fineness s.threshold (sums s.smooth (samples_of sound))) text }
{
    a_file_is_read_as_it_was_written();
    noise_below_the_margin_costs_no_word();
    short_distances_are_whole();
}

/// `wav-ltc` and then a report: of a track whose sums have a margin for a tape, which begins behind a
/// silence, the report under the tolerance of that margin has a line for each word of the tape, and none
/// beside. Its ticks run from the first sample.
pub fn what_is_sliced_of_a_track_is_reported()
    ensures { (profile : Profile) (w : SlicesWave) (format : WaveFormat) (tape : List Cell) (words : List Played)
        (file written text : List ℕ) → (reading_of (asked_by w) file).format ≡ Some format
        → (margin : HasMargin profile 16 w.threshold tape (sums w.smooth (reading_of (asked_by w) file).samples))
        → BeginsLate margin.delay margin.start tape → FitsBehindASilence margin.delay margin.start tape
        → AreWhole w.live w.system (16 * format.rate) (track_settings w) (reading_of (asked_by w) file).samples
        → bits tape ≡ false ∷ true ∷ bits_of_words words → AreSpelled w.system words
        → Meaning.output (along_sound_file w) file written
        → Meaning.output (along_intervals (report profile)) written text
        → ReportsWords (track_header w format) margin.delay (margin.start + duration (take 2 tape)) tape words
        (distances_from_start 16 w.threshold (sums w.smooth (reading_of (asked_by w) file).samples)) text }
{
    a_file_is_read_as_it_was_written();
    a_silence_before_the_tape_costs_no_word();
    short_distances_are_whole();
    the_rate_of_a_format_is_judged();
}

/// `pcm-ltc` and then `ltc-spans`: of a sound whose sums have a margin for a tape, the spans are those of
/// the words of the tape, each on time.
pub fn the_spans_of_a_margin_are_told()
    ensures { (flight : Flight) (s : Slices) (tape : List Cell) (words : List Played) (sound written text : List ℕ)
        → flight.witness ≡ NotAsked → IsSlicing s
        → (margin : HasMargin flight.profile s.fineness s.threshold tape (sums s.smooth (samples_of sound)))
        → FitsAFile margin.delay tape
        → AreWhole s.live s.system (s.rate * s.fineness) (settings_for s) (samples_of sound)
        → bits tape ≡ false ∷ true ∷ bits_of_words words → AreSpelled s.system words
        → Meaning.output (along_samples s) sound written
        → Meaning.output (along_intervals (spanned_recording flight)) written text
        → TellsSpans (sliced_header s) flight margin.delay (duration (take 2 tape)) tape words
        (distances s.fineness s.threshold (sums s.smooth (samples_of sound))) text }
{
    a_file_is_read_as_it_was_written();
    noise_below_the_margin_costs_no_word();
    short_distances_are_whole();
    the_open_span_has_the_last_line();
}

/// `wav-ltc` and then `ltc-spans`: the same of a track, whose tape begins behind a silence.
pub fn the_spans_of_a_track_are_told()
    ensures { (flight : Flight) (w : SlicesWave) (format : WaveFormat) (tape : List Cell) (words : List Played)
        (file written text : List ℕ) → flight.witness ≡ NotAsked
        → (reading_of (asked_by w) file).format ≡ Some format
        → (margin : HasMargin flight.profile 16 w.threshold tape (sums w.smooth (reading_of (asked_by w) file).samples))
        → BeginsLate margin.delay margin.start tape → FitsBehindASilence margin.delay margin.start tape
        → AreWhole w.live w.system (16 * format.rate) (track_settings w) (reading_of (asked_by w) file).samples
        → bits tape ≡ false ∷ true ∷ bits_of_words words → AreSpelled w.system words
        → Meaning.output (along_sound_file w) file written
        → Meaning.output (along_intervals (spanned_recording flight)) written text
        → TellsSpans (track_header w format) flight margin.delay (margin.start + duration (take 2 tape)) tape words
        (distances_from_start 16 w.threshold (sums w.smooth (reading_of (asked_by w) file).samples)) text }
{
    a_file_is_read_as_it_was_written();
    a_silence_before_the_tape_costs_no_word();
    short_distances_are_whole();
    the_open_span_has_the_last_line();
    the_rate_of_a_format_is_judged();
}

/// One span. If the labels of the words count on, and each word lasts less than one and a half of the
/// one before it, the spans of these words are one: from the first word to the last, all of them heard and
/// none bridged.
pub fn words_that_count_on_are_one_span()
    ensures { (header : IntervalHeader) (flight : Flight) (delay tick : ℕ) (tape : List Cell) (first : Played)
        (more : List Played) (intervals text : List ℕ)
        → TellsSpans header flight delay tick tape (first ∷ more) intervals text → CountOn first more
        → KeepPace delay (drop 2 tape) (first ∷ more)
        → TellsOneSpan header delay tick tape first more intervals text }
{
    the_next_word_fits();
}

/// `pcm-ltc`, and then `ltc-read`, `ltc-worn`, `ltc-rough` or `ltc-spans`: of samples with a margin for a
/// tape, the second run writes the report of its words, or their spans, and nothing else. If the
/// labels count on, it is one span.
pub fn the_words_of_a_sound_come_out_of_two_runs()
    ensures report { (profile : Profile) (s : Slices) (tape : List Cell) (words : List Played) (sound text : List ℕ)
        → (is : SoundsWords profile s tape words sound)
        → Piped (Job.PcmLtc s) (report_under profile) sound text
        → ReportsWords (sliced_header s) is.margin.delay (duration (take 2 tape)) tape words
        (distances s.fineness s.threshold (sums s.smooth (samples_of sound))) text }
    ensures spans { (flight : Flight) (s : Slices) (tape : List Cell) (words : List Played) (sound text : List ℕ)
        → flight.witness ≡ NotAsked → (is : SoundsWords flight.profile s tape words sound)
        → Piped (Job.PcmLtc s) (Job.LtcSpans flight) sound text
        → TellsSpans (sliced_header s) flight is.margin.delay (duration (take 2 tape)) tape words
        (distances s.fineness s.threshold (sums s.smooth (samples_of sound))) text }
    ensures one_span { (flight : Flight) (s : Slices) (tape : List Cell) (first : Played) (more : List Played)
        (sound text : List ℕ) → flight.witness ≡ NotAsked
        → (is : SoundsWords flight.profile s tape (first ∷ more) sound)
        → CountOn first more → KeepPace is.margin.delay (drop 2 tape) (first ∷ more)
        → Piped (Job.PcmLtc s) (Job.LtcSpans flight) sound text
        → TellsOneSpan (sliced_header s) is.margin.delay (duration (take 2 tape)) tape first more
        (distances s.fineness s.threshold (sums s.smooth (samples_of sound))) text }
{
    what_is_sliced_of_a_margin_is_reported();
    the_spans_of_a_margin_are_told();
    words_that_count_on_are_one_span();
}

/// `wav-ltc`, and then one of these: the same of a track of a sound file.
pub fn the_words_of_a_track_come_out_of_two_runs()
    ensures report { (profile : Profile) (w : SlicesWave) (format : WaveFormat) (tape : List Cell) (words : List Played)
        (file text : List ℕ) → (is : TrackSoundsWords profile w format tape words file)
        → Piped (Job.WavLtc w) (report_under profile) file text
        → ReportsWords (track_header w format) is.margin.delay (is.margin.start + duration (take 2 tape)) tape words
        (distances_from_start 16 w.threshold (sums w.smooth (reading_of (asked_by w) file).samples)) text }
    ensures spans { (flight : Flight) (w : SlicesWave) (format : WaveFormat) (tape : List Cell) (words : List Played)
        (file text : List ℕ) → flight.witness ≡ NotAsked
        → (is : TrackSoundsWords flight.profile w format tape words file)
        → Piped (Job.WavLtc w) (Job.LtcSpans flight) file text
        → TellsSpans (track_header w format) flight is.margin.delay (is.margin.start + duration (take 2 tape)) tape
        words
        (distances_from_start 16 w.threshold (sums w.smooth (reading_of (asked_by w) file).samples)) text }
    ensures one_span { (flight : Flight) (w : SlicesWave) (format : WaveFormat) (tape : List Cell) (first : Played)
        (more : List Played) (file text : List ℕ) → flight.witness ≡ NotAsked
        → (is : TrackSoundsWords flight.profile w format tape (first ∷ more) file)
        → CountOn first more → KeepPace is.margin.delay (drop 2 tape) (first ∷ more)
        → Piped (Job.WavLtc w) (Job.LtcSpans flight) file text
        → TellsOneSpan (track_header w format) is.margin.delay (is.margin.start + duration (take 2 tape)) tape first
        more
        (distances_from_start 16 w.threshold (sums w.smooth (reading_of (asked_by w) file).samples)) text }
{
    what_is_sliced_of_a_track_is_reported();
    the_spans_of_a_track_are_told();
    words_that_count_on_are_one_span();
}
