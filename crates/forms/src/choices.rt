//! The words of which one is given, and what each says. Read next: `slot`.
ghost use Rattle.std.specs.Prelude.{◌≡◌, ℕ, List, map, IfSome};
ghost use Rattle.std.specs.Str.{bytes_eq};
ghost use Rattle.forms.specs.Choice.{IsAmong, IsSaidAt, IsSaidIn, said_at, said_by, said_in};
ghost use Rattle.forms.specs.declared.value.Said.{Said};

use crate::value::{Asked, Said};
use biphase::Profile;
use interval_file::FileVersion;
use label_columns::Parting;
use tc_address::{Count, Direction, System};
use tc_job::Witness;

/// A count.
pub const COUNT: usize = 0;
/// A count whose pictures have lines of time code.
pub const COUNT_WITH_LINES: usize = 1;
/// A system.
pub const SYSTEM: usize = 2;
/// A system whose pictures have lines of time code.
pub const SYSTEM_WITH_LINES: usize = 3;
/// The way of the tape.
pub const DIRECTION: usize = 4;
/// A tolerance other than the normal one.
pub const TOLERANCE: usize = 5;
/// What each word is asked for.
pub const WITNESS: usize = 6;
/// The version of the interval file.
pub const VERSION: usize = 7;
/// How the threshold follows the level.
pub const FOLLOWING: usize = 8;
/// The threshold follows the level at a quarter of it.
pub const DEEP: usize = 9;
/// The best path.
pub const PATH: usize = 10;
/// As it passes.
pub const LIVE: usize = 11;
/// Pulled down.
pub const NTSC: usize = 12;
/// What is asked of labels, with no value after it.
pub const ALONE: usize = 13;
/// A label further on or back.
pub const ALONG: usize = 14;
/// The way from a label.
pub const SINCE: usize = 15;
/// What another count shows.
pub const TO: usize = 16;
/// No word.
pub const NOTHING: usize = 17;
/// The page of the exit numbers.
pub const STATUSES: usize = 18;
/// Some columns of each line, and what parts them.
pub const COLUMN: usize = 19;
/// The sum of all labels.
pub const SUM: usize = 20;

/// The words of each choice, in the order of these places.
pub static CHOICES: [&[(&str, Said)]; 21] = [
    &[
        ("24", Said::Count(Count::C24)),
        ("25", Said::Count(Count::C25)),
        ("30", Said::Count(Count::C30)),
        ("30d", Said::Count(Count::Drop30)),
    ],
    &[
        ("25", Said::Count(Count::C25)),
        ("30", Said::Count(Count::C30)),
        ("30d", Said::Count(Count::Drop30)),
    ],
    &[
        ("24", Said::System(System::F24)),
        ("25", Said::System(System::F25)),
        ("30", Said::System(System::F30)),
    ],
    &[
        ("25", Said::System(System::F25)),
        ("30", Said::System(System::F30)),
    ],
    &[
        ("forward", Said::Direction(Direction::Forward)),
        ("backward", Said::Direction(Direction::Backward)),
    ],
    &[
        ("worn", Said::Tolerance(Profile::Worn)),
        ("rough", Said::Tolerance(Profile::Rough)),
    ],
    &[
        ("firm", Said::Witness(Witness::Asked)),
        ("consecutive", Said::Witness(Witness::Consecutive)),
        ("counted", Said::Witness(Witness::Counted)),
    ],
    &[
        ("1", Said::Version(FileVersion::One)),
        ("2", Said::Version(FileVersion::Two)),
    ],
    &[("follow", Said::Follow), ("deep", Said::Deep)],
    &[("deep", Said::Deep)],
    &[("path", Said::Path)],
    &[("live", Said::Live)],
    &[("ntsc", Said::Ntsc)],
    &[
        ("number", Said::Asked(Asked::Number)),
        ("label", Said::Asked(Asked::Label)),
        ("seconds", Said::Asked(Asked::Seconds)),
        ("length", Said::Asked(Asked::Length)),
    ],
    &[
        ("plus", Said::Asked(Asked::Plus)),
        ("minus", Said::Asked(Asked::Minus)),
    ],
    &[("since", Said::Since)],
    &[("to", Said::Asked(Asked::To))],
    &[],
    &[("statuses", Said::Statuses)],
    &[
        ("column", Said::Parting(Parting::Blanks)),
        ("csv", Said::Parting(Parting::CommasAndSemicolons)),
    ],
    &[("sum", Said::Sum)],
];

/// What a word of a choice says.
#[tactic(auto, unfolding(crate::specs::Choice::said_by, crate::specs::Choice::IsSaidIn, crate::specs::Choice::choices))]
pub(crate) fn said_by(choice: usize, word: &str) -> Option<Said>
    ensures value { result ≡ said_by choice word.now }
    ensures among { IfSome result (IsSaidIn choice) }
{
    said_at(&CHOICES, choice, word)
}

/// What a word of the choice at a place says.
fn said_at(choices: &[&[(&str, Said)]], place: usize, word: &str) -> Option<Said>
    ensures value { result ≡ said_at (map {B = List (List ℕ × Said)} (λ words.
        map {B = List ℕ × Said} (λ w. (w.0.now, w.1)) words.now) choices.now) place word.now }
    ensures among { IfSome result (IsSaidAt (map {B = List (List ℕ × Said)} (λ words.
        map {B = List ℕ × Said} (λ w. (w.0.now, w.1)) words.now) choices.now) place) }
{
    match choices {
        [] => None,
        [words, others @ ..] => {
            if place == 0 {
                said_in(words, word)
            } else {
                said_at(others, place - 1, word)
            }
        }
    }
}

/// What a word says, if it is one of these.
fn said_in(words: &[(&str, Said)], word: &str) -> Option<Said>
    ensures value { result ≡ said_in (map {B = List ℕ × Said} (λ w. (w.0.now, w.1)) words.now) word.now }
    ensures among { IfSome result (IsAmong (map {B = List ℕ × Said} (λ w. (w.0.now, w.1)) words.now)) }
{
    match words {
        [] => None,
        [row, others @ ..] => {
            if is_word(word, row.0) {
                Some(row.1)
            } else {
                said_in(others, word)
            }
        }
    }
}

pub(crate) fn is_word(word: &str, other: &str) -> bool
    ensures { result ≡ bytes_eq word.now other.now }
{
    *word == *other
}
