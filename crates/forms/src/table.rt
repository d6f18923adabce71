//! The form of each command: how it is typed, word by word. Read next: `reading`.
ghost use Rattle.std.specs.Prelude.{◌≡◌, ℕ, List, map, option_map, IfSome};
ghost use Rattle.std.specs.List.{find};
ghost use Rattle.forms.specs.Form.{Row, SlotRow, form_of, is_form_of};
ghost use Rattle.forms.specs.Number.{Word};
ghost use Rattle.forms.specs.Needs.{AreSuited, IsSuited};
ghost use Rattle.forms.specs.declared.command.Command.{Command};

use crate::choices;
use crate::choices::is_word;
use crate::command::Command;
use crate::form::{Form, are_met};
use crate::slot::Need::{Needed, Optional, OrLive};
use crate::slot::Slot::{Bounded, Number, OneOf};
use crate::slot::{Bound, Need, Slot};
use biphase::{MAX_SHAPED, MIN_SHAPED};
use limits::{MAX_TICK_RATE, MAX_TRACKS};
use luma_field::{MAX_HEIGHT, MAX_ROWS};
use luma_row::{MAX_WIDTH, MIN_WIDTH};
use pcm_front::MAX_SMOOTH;
use tc_job::{MAX_FINENESS, MAX_FRAMES, MAX_LEVEL, MAX_SLIP, MAX_WORDS};
use vitc_reader::{MAX_LINE_LENGTH, MIN_LINE_LENGTH};

/// `LIMIT [worn|rough [firm|consecutive|counted]]`
pub const FLIGHT: &[(Need, Slot)] = &[
    (Needed, Number(0, 255)),
    (Optional, OneOf(choices::TOLERANCE)),
    (Optional, OneOf(choices::WITNESS)),
];

/// `LIMIT CELL TICK-RATE [worn|rough [firm|consecutive|counted]]`
pub const JAM: &[(Need, Slot)] = &[
    (Needed, Number(0, 255)),
    (Needed, Number(MIN_SHAPED, MAX_SHAPED)),
    (Needed, Number(1, MAX_TICK_RATE)),
    (Optional, OneOf(choices::TOLERANCE)),
    (Optional, OneOf(choices::WITNESS)),
];

/// `SYSTEM RATE THRESHOLD FINENESS path`, and no word more
pub const PCM_PATH: &[(Need, Slot)] = &[
    (Needed, OneOf(choices::SYSTEM)),
    (Needed, Slot::PathRate { system: 0 }),
    (Needed, Number(1, MAX_LEVEL)),
    (Needed, Slot::PathFineness { system: 0, rate: 1 }),
    (Needed, OneOf(choices::PATH)),
    (Optional, OneOf(choices::NOTHING)),
    (Optional, OneOf(choices::NOTHING)),
];

/// `SYSTEM RATE THRESHOLD [FINENESS [follow|deep [SMOOTH]]] [live]`
pub const PCM: &[(Need, Slot)] = &[
    (Needed, OneOf(choices::SYSTEM)),
    (Needed, Number(1, MAX_TICK_RATE)),
    (Needed, Number(1, MAX_LEVEL)),
    (
        OrLive,
        Bounded(
            1,
            MAX_FINENESS,
            Bound::Product {
                place: 1,
                most: MAX_TICK_RATE,
            },
        ),
    ),
    (OrLive, OneOf(choices::FOLLOWING)),
    (OrLive, Number(1, MAX_SMOOTH)),
    (Optional, OneOf(choices::LIVE)),
];

/// `SYSTEM TRACK THRESHOLD path`, and no word more
pub const WAV_PATH: &[(Need, Slot)] = &[
    (Needed, OneOf(choices::SYSTEM)),
    (Needed, Number(1, MAX_TRACKS)),
    (Needed, Number(1, MAX_LEVEL)),
    (Needed, OneOf(choices::PATH)),
    (Optional, OneOf(choices::NOTHING)),
    (Optional, OneOf(choices::NOTHING)),
];

/// `SYSTEM TRACK THRESHOLD [SMOOTH [deep]] [live]`
pub const WAV: &[(Need, Slot)] = &[
    (Needed, OneOf(choices::SYSTEM)),
    (Needed, Number(1, MAX_TRACKS)),
    (Needed, Number(1, MAX_LEVEL)),
    (OrLive, Number(1, MAX_SMOOTH)),
    (OrLive, OneOf(choices::DEEP)),
    (Optional, OneOf(choices::LIVE)),
];

/// `LEVEL`
pub const LEVEL: &[(Need, Slot)] = &[(Needed, Number(1, MAX_LEVEL))];

/// `COUNT DIRECTION LABEL FRAMES CELL TICK-RATE [TO-CELL STEP]`
pub const MAKE: &[(Need, Slot)] = &[
    (Needed, OneOf(choices::COUNT)),
    (Needed, OneOf(choices::DIRECTION)),
    (Needed, Slot::Label { count: 0 }),
    (Needed, Number(1, MAX_FRAMES)),
    (Needed, Number(MIN_SHAPED, MAX_SHAPED)),
    (Needed, Number(1, MAX_TICK_RATE)),
    (Optional, Number(MIN_SHAPED, MAX_SHAPED)),
    (
        Needed,
        Bounded(0, MAX_SHAPED, Bound::Eighth { one: 4, other: 6 }),
    ),
];

/// `SEED WORDS`
pub const LOAD: &[(Need, Slot)] = &[(Needed, Slot::Seed), (Needed, Number(1, MAX_WORDS))];

/// `COUNT LABEL`
pub const LABEL: &[(Need, Slot)] = &[
    (Needed, OneOf(choices::COUNT)),
    (Needed, Slot::Label { count: 0 }),
];

/// `COUNT LABEL LIMIT SEED BOUND [worn|rough [firm|consecutive|counted]]`
pub const CHASE: &[(Need, Slot)] = &[
    (Needed, OneOf(choices::COUNT)),
    (Needed, Slot::Label { count: 0 }),
    (Needed, Number(0, 255)),
    (Needed, Slot::Seed),
    (Needed, Number(0, MAX_SLIP)),
    (Optional, OneOf(choices::TOLERANCE)),
    (Optional, OneOf(choices::WITNESS)),
];

/// `SYSTEM WIDTH HEIGHT FIRST ROWS`
pub const LUMA: &[(Need, Slot)] = &[
    (Needed, OneOf(choices::SYSTEM_WITH_LINES)),
    (Needed, Number(MIN_WIDTH as u32, MAX_WIDTH as u32)),
    (Needed, Number(1, MAX_HEIGHT)),
    (Needed, Bounded(0, MAX_HEIGHT, Bound::Below { place: 2 })),
    (
        Needed,
        Bounded(1, MAX_ROWS, Bound::Rest { all: 2, first: 3 }),
    ),
];

/// `COUNT LABEL FRAMES LENGTH`
pub const LINES: &[(Need, Slot)] = &[
    (Needed, OneOf(choices::COUNT_WITH_LINES)),
    (Needed, Slot::Label { count: 0 }),
    (Needed, Number(1, MAX_FRAMES)),
    (Needed, Number(MIN_LINE_LENGTH, MAX_LINE_LENGTH)),
];

/// `COUNT NUMBER`
pub const NUMBER: &[(Need, Slot)] = &[
    (Needed, OneOf(choices::COUNT)),
    (Needed, Slot::NumberOfDay { count: 0 }),
];

/// `COUNT since LABEL`
pub const SINCE: &[(Need, Slot)] = &[
    (Needed, OneOf(choices::COUNT)),
    (Needed, OneOf(choices::SINCE)),
    (Needed, Slot::Label { count: 0 }),
];

/// `COUNT ntsc since LABEL`
pub const PULLED_SINCE: &[(Need, Slot)] = &[
    (Needed, OneOf(choices::COUNT)),
    (Needed, Slot::Ntsc { count: 0 }),
    (Needed, OneOf(choices::SINCE)),
    (Needed, Slot::Label { count: 0 }),
];

/// `COUNT column|csv COLUMNS since LABEL`
pub const COLUMNS_SINCE: &[(Need, Slot)] = &[
    (Needed, OneOf(choices::COUNT)),
    (Needed, OneOf(choices::COLUMN)),
    (Needed, Slot::Columns),
    (Needed, OneOf(choices::SINCE)),
    (Needed, Slot::Label { count: 0 }),
];

/// `COUNT ntsc column|csv COLUMNS since LABEL`
pub const PULLED_COLUMNS_SINCE: &[(Need, Slot)] = &[
    (Needed, OneOf(choices::COUNT)),
    (Needed, Slot::Ntsc { count: 0 }),
    (Needed, OneOf(choices::COLUMN)),
    (Needed, Slot::Columns),
    (Needed, OneOf(choices::SINCE)),
    (Needed, Slot::Label { count: 0 }),
];

/// The forms, in the order of `help`. Of a command with several ways the first one whose marks stand is taken.
pub static FORMS: [Form; 47] = [
    ("ltc-read", &[], &[], Command::LtcRead),
    ("ltc-worn", &[], &[], Command::LtcWorn),
    (
        "ltc-rough",
        &[],
        &[(Optional, OneOf(choices::WITNESS))],
        Command::LtcRough,
    ),
    ("ltc-fly", &[], FLIGHT, Command::LtcFly),
    ("ltc-spans", &[], FLIGHT, Command::LtcSpans),
    ("ltc-mtc", &[], FLIGHT, Command::LtcMtc),
    ("ltc-jam", &[], JAM, Command::LtcJam),
    (
        "ltc-convert",
        &[],
        &[(Needed, OneOf(choices::VERSION))],
        Command::LtcConvert,
    ),
    ("pcm-ltc", &[(4, choices::PATH)], PCM_PATH, Command::PcmPath),
    ("pcm-ltc", &[], PCM, Command::PcmLtc),
    ("wav-ltc", &[(3, choices::PATH)], WAV_PATH, Command::WavPath),
    ("wav-ltc", &[], WAV, Command::WavLtc),
    ("ltc-pcm", &[], LEVEL, Command::LtcPcm),
    ("ltc-make", &[], MAKE, Command::LtcMake),
    ("ltc-load", &[], LOAD, Command::LtcLoad),
    ("mtc-read", &[], &[], Command::MtcRead),
    ("chase", &[], LABEL, Command::Chase),
    ("ltc-chase", &[], CHASE, Command::LtcChase),
    ("vitc-read", &[], &[], Command::VitcRead),
    ("luma-vitc", &[], LUMA, Command::LumaVitc),
    ("vitc-make", &[], LINES, Command::VitcMake),
    ("number", &[], LABEL, Command::Number),
    ("label", &[], NUMBER, Command::Label),
    (
        "labels",
        &[
            (1, choices::NTSC),
            (2, choices::COLUMN),
            (4, choices::ALONE),
        ],
        &[
            (Needed, OneOf(choices::COUNT)),
            (Needed, Slot::Ntsc { count: 0 }),
            (Needed, OneOf(choices::COLUMN)),
            (Needed, Slot::Columns),
            (Needed, OneOf(choices::ALONE)),
        ],
        Command::LabelColumns,
    ),
    (
        "labels",
        &[
            (1, choices::NTSC),
            (2, choices::COLUMN),
            (4, choices::ALONG),
        ],
        &[
            (Needed, OneOf(choices::COUNT)),
            (Needed, Slot::Ntsc { count: 0 }),
            (Needed, OneOf(choices::COLUMN)),
            (Needed, Slot::Columns),
            (Needed, OneOf(choices::ALONG)),
            (Needed, Slot::Frames { count: 0 }),
        ],
        Command::LabelColumns,
    ),
    (
        "labels",
        &[
            (1, choices::NTSC),
            (2, choices::COLUMN),
            (4, choices::SINCE),
        ],
        PULLED_COLUMNS_SINCE,
        Command::PulledLabelColumnsSince,
    ),
    (
        "labels",
        &[(1, choices::NTSC), (2, choices::COLUMN), (4, choices::TO)],
        &[
            (Needed, OneOf(choices::COUNT)),
            (Needed, Slot::Ntsc { count: 0 }),
            (Needed, OneOf(choices::COLUMN)),
            (Needed, Slot::Columns),
            (Needed, OneOf(choices::TO)),
            (Needed, OneOf(choices::COUNT)),
            (Optional, Slot::Ntsc { count: 5 }),
        ],
        Command::LabelColumns,
    ),
    (
        "labels",
        &[(1, choices::NTSC), (2, choices::COLUMN)],
        &[
            (Needed, OneOf(choices::COUNT)),
            (Needed, Slot::Ntsc { count: 0 }),
            (Needed, OneOf(choices::COLUMN)),
            (Needed, Slot::Columns),
            (Needed, OneOf(choices::ALONE)),
            (Optional, OneOf(choices::NOTHING)),
            (Optional, OneOf(choices::NOTHING)),
        ],
        Command::LabelColumns,
    ),
    (
        "labels",
        &[(1, choices::COLUMN), (3, choices::ALONE)],
        &[
            (Needed, OneOf(choices::COUNT)),
            (Needed, OneOf(choices::COLUMN)),
            (Needed, Slot::Columns),
            (Needed, OneOf(choices::ALONE)),
        ],
        Command::LabelColumns,
    ),
    (
        "labels",
        &[(1, choices::COLUMN), (3, choices::ALONG)],
        &[
            (Needed, OneOf(choices::COUNT)),
            (Needed, OneOf(choices::COLUMN)),
            (Needed, Slot::Columns),
            (Needed, OneOf(choices::ALONG)),
            (Needed, Slot::Frames { count: 0 }),
        ],
        Command::LabelColumns,
    ),
    (
        "labels",
        &[(1, choices::COLUMN), (3, choices::SINCE)],
        COLUMNS_SINCE,
        Command::LabelColumnsSince,
    ),
    (
        "labels",
        &[(1, choices::COLUMN), (3, choices::TO)],
        &[
            (Needed, OneOf(choices::COUNT)),
            (Needed, OneOf(choices::COLUMN)),
            (Needed, Slot::Columns),
            (Needed, OneOf(choices::TO)),
            (Needed, OneOf(choices::COUNT)),
            (Optional, Slot::Ntsc { count: 4 }),
        ],
        Command::LabelColumns,
    ),
    (
        "labels",
        &[(1, choices::COLUMN)],
        &[
            (Needed, OneOf(choices::COUNT)),
            (Needed, OneOf(choices::COLUMN)),
            (Needed, Slot::Columns),
            (Needed, OneOf(choices::ALONE)),
            (Optional, OneOf(choices::NOTHING)),
            (Optional, OneOf(choices::NOTHING)),
        ],
        Command::LabelColumns,
    ),
    (
        "labels",
        &[(1, choices::NTSC), (2, choices::ALONE)],
        &[
            (Needed, OneOf(choices::COUNT)),
            (Needed, Slot::Ntsc { count: 0 }),
            (Needed, OneOf(choices::ALONE)),
        ],
        Command::Labels,
    ),
    (
        "labels",
        &[(1, choices::NTSC), (2, choices::ALONG)],
        &[
            (Needed, OneOf(choices::COUNT)),
            (Needed, Slot::Ntsc { count: 0 }),
            (Needed, OneOf(choices::ALONG)),
            (Needed, Slot::Frames { count: 0 }),
        ],
        Command::Labels,
    ),
    (
        "labels",
        &[(1, choices::NTSC), (2, choices::SINCE)],
        PULLED_SINCE,
        Command::PulledLabelsSince,
    ),
    (
        "labels",
        &[(1, choices::NTSC), (2, choices::TO)],
        &[
            (Needed, OneOf(choices::COUNT)),
            (Needed, Slot::Ntsc { count: 0 }),
            (Needed, OneOf(choices::TO)),
            (Needed, OneOf(choices::COUNT)),
            (Optional, Slot::Ntsc { count: 3 }),
        ],
        Command::Labels,
    ),
    (
        "labels",
        &[(1, choices::NTSC), (2, choices::SUM)],
        &[
            (Needed, OneOf(choices::COUNT)),
            (Needed, Slot::Ntsc { count: 0 }),
            (Needed, OneOf(choices::SUM)),
        ],
        Command::LabelSum,
    ),
    (
        "labels",
        &[(1, choices::NTSC)],
        &[
            (Needed, OneOf(choices::COUNT)),
            (Needed, Slot::Ntsc { count: 0 }),
            (Needed, OneOf(choices::ALONE)),
            (Optional, OneOf(choices::NOTHING)),
            (Optional, OneOf(choices::NOTHING)),
        ],
        Command::Labels,
    ),
    (
        "labels",
        &[(1, choices::ALONE)],
        &[
            (Needed, OneOf(choices::COUNT)),
            (Needed, OneOf(choices::ALONE)),
        ],
        Command::Labels,
    ),
    (
        "labels",
        &[(1, choices::ALONG)],
        &[
            (Needed, OneOf(choices::COUNT)),
            (Needed, OneOf(choices::ALONG)),
            (Needed, Slot::Frames { count: 0 }),
        ],
        Command::Labels,
    ),
    (
        "labels",
        &[(1, choices::SINCE)],
        SINCE,
        Command::LabelsSince,
    ),
    (
        "labels",
        &[(1, choices::TO)],
        &[
            (Needed, OneOf(choices::COUNT)),
            (Needed, OneOf(choices::TO)),
            (Needed, OneOf(choices::COUNT)),
            (Optional, Slot::Ntsc { count: 2 }),
        ],
        Command::Labels,
    ),
    (
        "labels",
        &[(1, choices::SUM)],
        &[
            (Needed, OneOf(choices::COUNT)),
            (Needed, OneOf(choices::SUM)),
        ],
        Command::LabelSum,
    ),
    (
        "labels",
        &[],
        &[
            (Needed, OneOf(choices::COUNT)),
            (Needed, OneOf(choices::ALONE)),
            (Optional, OneOf(choices::NOTHING)),
            (Optional, OneOf(choices::NOTHING)),
        ],
        Command::Labels,
    ),
    ("help", &[], &[(Optional, Slot::Topic)], Command::Help),
    ("version", &[], &[], Command::Version),
];

/// The form of a command by which these words behind it are read.
#[tactic(auto, unfolding(crate::specs::Form::form_of, crate::specs::Form::forms))]
pub fn form_of(command: &str, words: &[&str]) -> Option<&'static Form>
    ensures form { option_map {U = Row} (λ f. (f.now.0.now, f.now.1.now, f.now.2.now, f.now.3)) result
        ≡ form_of command.now (map (λ w. w.now) words.now) }
    ensures suited { IfSome result (λ form. IsSuited form.now.2.now form.now.3) }
{
    first_form(&FORMS, command, words)
}

/// The first of some forms by which they are read.
fn first_form<'a>(forms: &'a [Form], command: &str, words: &[&str]) -> Option<&'a Form>
    requires { AreSuited (map {B = List SlotRow × Command} (λ f. (f.2.now, f.3)) forms.now) }
    ensures form { option_map {U = Row} (λ f. (f.now.0.now, f.now.1.now, f.now.2.now, f.now.3)) result
        ≡ find (is_form_of command.now (map (λ w. w.now) words.now))
        (map {B = Row} (λ f. (f.0.now, f.1.now, f.2.now, f.3)) forms.now) }
    ensures suited { IfSome result (λ form. IsSuited form.now.2.now form.now.3) }
{
    match forms {
        [] => None,
        [form, others @ ..] => {
            if is_word(command, form.0) && are_met(form.1, words) {
                Some(form)
            } else {
                first_form(others, command, words)
            }
        }
    }
}
