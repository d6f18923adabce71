//! From a sound to the report of its words.
//!
//! `tape_sound` says what is read of a sound with a margin. This crate says it of bytes: of what
//! `pcm-ltc` writes of samples, and of what `wav-ltc` writes of a track of a sound file, the report has a
//! line for each word of the tape, at its place, and none beside; and its last line counts them, and
//! nothing refused or lost.
//!
//! What this crate promises, all of it by laws:
//! - `what_is_sliced_of_a_margin_is_reported` and `what_is_sliced_of_a_track_is_reported`, over
//!   `specs/WordsReport.antt`, `ReportsWords`, for each tolerance: `ltc-read`, `ltc-worn` and `ltc-rough`.
//! - `the_spans_of_a_margin_are_told` and `the_spans_of_a_track_are_told`, over `specs/WordsSpans.antt`,
//!   `TellsSpans`: `ltc-spans` writes the spans of these words. If their labels count on and each lasts
//!   less than one and a half of the one before, it is one span, in closed form
//!   (`words_that_count_on_are_one_span`, `specs/OneSpan.antt`, `TellsOneSpan`).
//! - All of this of two runs of the program, of which the second reads what the first one wrote
//!   (`the_words_of_a_sound_come_out_of_two_runs`, `the_words_of_a_track_come_out_of_two_runs`, over
//!   `specs/TwoRuns.antt`, `Piped`): words and bytes in, the report out.
//! - It is the same if the sound is sliced live, as long as nothing lasts a quarter of a frame
//!   (`specs/Whole.antt`, `AreWhole`).
//!
//! Read `specs/WordsReport.antt`, `WordsSpans`, `OneSpan`, `Whole` and `TwoRuns`, and `laws`.
//! Nothing here runs. The crate builds on the program, for the two runs, and the program not on it.
#![tactic(auto)]

pub mod laws;
