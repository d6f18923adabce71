//! What the values of words are called in the pages of help, and what each is. Read next:
//! `laws`.

/// What a value is called, or nothing if its words stand for themselves; and what it is, or nothing if a way of the
/// command that comes before has told it. It is no struct, since a definition can't name a constant that has a struct
/// with a text in it.
pub type Name = (&'static str, &'static str);

const COUNT: Name = ("COUNT", "how labels are counted; 30d is 30 with drop-frame");

const LABEL: Name = (
    "LABEL",
    "a label of the count; with 30d in quotes, 'HH:MM:SS;FF'",
);

const LIMIT: Name = (
    "LIMIT",
    "at most this many missing frames in a row are invented",
);

const TOLERANCE: Name = ("", "words are read as ltc-worn or ltc-rough reads them");

const WITNESS: Name = ("", "which other word each word needs beside it");

const SYSTEM: Name = ("SYSTEM", "frames a second");

const PATH: Name = (
    "",
    "follows the best path through sound that is too noisy to slice",
);

const SMOOTH: Name = ("SMOOTH", "sums of this many samples are sliced");

const LIVE: Name = (
    "",
    "a long interval is written in pieces as it passes; always the last word",
);

const FRAMES: Name = ("FRAMES", "how many frames");

const TICK_RATE: Name = ("TICK-RATE", "ticks a second");

/// Of `ltc-rough`.
const ROUGH: &[Name] = &[WITNESS];

/// Of `ltc-fly`, `ltc-spans` and `ltc-mtc`.
const FLIGHT: &[Name] = &[LIMIT, TOLERANCE, WITNESS];

/// Of `ltc-jam`.
const JAM: &[Name] = &[
    LIMIT,
    ("CELL", "how many ticks a cell lasts"),
    TICK_RATE,
    TOLERANCE,
    WITNESS,
];

/// Of `ltc-convert`.
const CONVERT: &[Name] = &[("VERSION", "the version of the file that is written")];

/// Of `pcm-ltc` along the best path.
const PCM_PATH: &[Name] = &[
    SYSTEM,
    ("RATE", "samples a second; with path at least 140 a frame"),
    (
        "THRESHOLD",
        "how far from zero sound must go for a crossing to count",
    ),
    (
        "FINENESS",
        "ticks a sample, at most 100000000 ticks a second",
    ),
    PATH,
];

/// Of `pcm-ltc` at a threshold.
const PCM: &[Name] = &[
    ("SYSTEM", ""),
    ("RATE", ""),
    ("THRESHOLD", ""),
    ("FINENESS", ""),
    (
        "",
        "the threshold is a half or a quarter of the level of the sound",
    ),
    SMOOTH,
    LIVE,
];

/// Of `wav-ltc` along the best path.
const WAV_PATH: &[Name] = &[
    SYSTEM,
    ("TRACK", "the track with the code"),
    (
        "THRESHOLD",
        "the least threshold; above it, half of the sound level",
    ),
    PATH,
];

/// Of `wav-ltc` at a threshold.
const WAV: &[Name] = &[
    ("SYSTEM", ""),
    ("TRACK", ""),
    ("THRESHOLD", ""),
    SMOOTH,
    ("", "the threshold is a quarter of that level"),
    LIVE,
];

/// Of `ltc-pcm`.
const LEVEL: &[Name] = &[("LEVEL", "the size of each sample")];

/// Of `ltc-make`.
const MAKE: &[Name] = &[
    COUNT,
    ("DIRECTION", "how the tape runs"),
    LABEL,
    FRAMES,
    ("CELL", "how many ticks the first cell lasts"),
    TICK_RATE,
    ("TO-CELL", "how many ticks the cells last in the end"),
    (
        "STEP",
        "ticks by which each cell changes; at most TO-CELL/8 too",
    ),
];

/// Of `ltc-load`.
const LOAD: &[Name] = &[
    ("SEED", "the same seed makes the same recording"),
    ("WORDS", "how many words are made"),
];

/// Of `chase` and `number`.
const LABELLED: &[Name] = &[COUNT, LABEL];

/// Of `ltc-chase`.
const CHASE: &[Name] = &[
    COUNT,
    LABEL,
    LIMIT,
    ("SEED", "the seed of the slips"),
    ("BOUND", "the greatest slip, in eightieths of a frame"),
    TOLERANCE,
    WITNESS,
];

/// Of `luma-vitc`.
const LUMA: &[Name] = &[
    SYSTEM,
    ("WIDTH", "pixels in a row"),
    ("HEIGHT", "rows in a field"),
    ("FIRST", "the first row that is looked at; the top row is 0"),
    (
        "ROWS",
        "how many rows are looked at; FIRST + ROWS is at most HEIGHT",
    ),
];

/// Of `vitc-make`.
const LINES: &[Name] = &[
    COUNT,
    LABEL,
    FRAMES,
    ("LENGTH", "how many ticks a line lasts"),
];

/// Of `label`.
const NUMBER: &[Name] = &[
    COUNT,
    ("NUMBER", "how many labels come before it in the day"),
];

/// Of `labels` in columns, where nothing follows the way.
const ALONE: &[Name] = &[
    COUNT,
    ("", "after 24 or 30: at 1000/1001 of that rate"),
    (
        "",
        "labels are in COLUMNS, parted by blanks or commas; all else stays",
    ),
    ("COLUMNS", "a column of each line, or those from N to M"),
    ("WAY", "what is written for each line or label"),
];

/// Of `labels` in columns along a distance.
const ALONG: &[Name] = &[
    ("COUNT", ""),
    ("", ""),
    ("", ""),
    ("COLUMNS", ""),
    ("WAY", "the label that is N labels later or earlier"),
    ("N", "how many labels, or the label of that number"),
];

/// Of `labels` in columns since a label.
const SINCE: &[Name] = &[
    ("COUNT", ""),
    ("", ""),
    ("", ""),
    ("COLUMNS", ""),
    (
        "WAY",
        "how many labels it is from LABEL, the shortest way and forward",
    ),
    ("LABEL", "that label, after since"),
];

/// Of `labels` in columns to another count.
const TO: &[Name] = &[
    ("COUNT", ""),
    ("", ""),
    ("", ""),
    ("COLUMNS", ""),
    (
        "WAY",
        "what another count shows at that moment, to thousandths of a frame",
    ),
    ("COUNT", "that count, after to; ntsc may follow 24 or 30"),
];

/// Of `labels` for a sum.
const SUM: &[Name] = &[
    ("COUNT", ""),
    ("", ""),
    (
        "WAY",
        "without columns: the sum of all lines, in frames and as a label",
    ),
];

/// Of `help`. Which words it takes stands in its page.
const HELP: &[Name] = &[("COMMAND|statuses", "")];

/// Of a way that has no values, or whose values another one tells.
const NONE: &[Name] = &[];

/// What the values of each way are called, a row for each row of `FORMS`.
pub static NAMES: [&[Name]; 47] = [
    NONE, NONE, ROUGH, FLIGHT, FLIGHT, FLIGHT, JAM, CONVERT, PCM_PATH, PCM, WAV_PATH, WAV, LEVEL,
    MAKE, LOAD, NONE, LABELLED, CHASE, NONE, LUMA, LINES, LABELLED, NUMBER, ALONE, ALONG, SINCE,
    TO, NONE, NONE, NONE, NONE, NONE, NONE, NONE, NONE, NONE, NONE, SUM, NONE, NONE, NONE, NONE,
    NONE, NONE, NONE, HELP, NONE,
];
