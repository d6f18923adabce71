//! What the words of each command may be, as its page lists them. Made by tools/make_help_values from the slots by
//! which they are read (`table` and `names` of forms), and a law there proves that they are those
//! (`each_page_lists_what_is_taken`). The last rows, by hand, say of `help` which words it takes.
use crate::page_line::PageLine;

/// The lines of the values of each command that has some.
pub static VALUES: [(&str, PageLine); 24] = [
    (
        "ltc-rough",
        (
            "  firm|consecutive|counted: which other word each word needs beside it",
            "",
            "",
        ),
    ),
    (
        "ltc-fly",
        (
            "  LIMIT 0 to 255: at most this many missing frames in a row are invented\n\
            \x20 worn|rough: words are read as ltc-worn or ltc-rough reads them\n\
            \x20 firm|consecutive|counted: which other word each word needs beside it",
            "",
            "",
        ),
    ),
    (
        "ltc-spans",
        (
            "  LIMIT 0 to 255: at most this many missing frames in a row are invented\n\
            \x20 worn|rough: words are read as ltc-worn or ltc-rough reads them\n\
            \x20 firm|consecutive|counted: which other word each word needs beside it",
            "",
            "",
        ),
    ),
    (
        "ltc-mtc",
        (
            "  LIMIT 0 to 255: at most this many missing frames in a row are invented\n\
            \x20 worn|rough: words are read as ltc-worn or ltc-rough reads them\n\
            \x20 firm|consecutive|counted: which other word each word needs beside it",
            "",
            "",
        ),
    ),
    (
        "ltc-jam",
        (
            "  LIMIT 0 to 255: at most this many missing frames in a row are invented\n\
            \x20 CELL 16 to 8388607: how many ticks a cell lasts\n\
            \x20 TICK-RATE 1 to 100000000: ticks a second\n\
            \x20 worn|rough: words are read as ltc-worn or ltc-rough reads them\n\
            \x20 firm|consecutive|counted: which other word each word needs beside it",
            "",
            "",
        ),
    ),
    (
        "ltc-convert",
        (
            "  VERSION 1|2: the version of the file that is written",
            "",
            "",
        ),
    ),
    (
        "pcm-ltc",
        (
            "  SYSTEM 24|25|30: frames a second\n\
            \x20 RATE 1 to 100000000: samples a second; with path at least 140 a frame\n\
            \x20 THRESHOLD 1 to 32767: how far from zero sound must go for a crossing to count\n\
            \x20 FINENESS 1 to 64: ticks a sample, at most 100000000 ticks a second\n\
            \x20 path: follows the best path through sound that is too noisy to slice\n\
            \x20 follow|deep: the threshold is a half or a quarter of the level of the sound\n\
            \x20 SMOOTH 1 to 16: sums of this many samples are sliced\n\
            \x20 live: a long interval is written in pieces as it passes; always the last word",
            "",
            "",
        ),
    ),
    (
        "wav-ltc",
        (
            "  SYSTEM 24|25|30: frames a second\n\
            \x20 TRACK 1 to 64: the track with the code\n\
            \x20 THRESHOLD 1 to 32767: the least threshold; above it, half of the sound level\n\
            \x20 path: follows the best path through sound that is too noisy to slice\n\
            \x20 SMOOTH 1 to 16: sums of this many samples are sliced\n\
            \x20 deep: the threshold is a quarter of that level\n\
            \x20 live: a long interval is written in pieces as it passes; always the last word",
            "",
            "",
        ),
    ),
    (
        "ltc-pcm",
        ("  LEVEL 1 to 32767: the size of each sample", "", ""),
    ),
    (
        "ltc-make",
        (
            "  COUNT 24|25|30|30d: how labels are counted; 30d is 30 with drop-frame\n\
            \x20 DIRECTION forward|backward: how the tape runs\n\
            \x20 LABEL HH:MM:SS:FF: a label of the count; with 30d in quotes, 'HH:MM:SS;FF'\n\
            \x20 FRAMES 1 to 1000000: how many frames\n\
            \x20 CELL 16 to 8388607: how many ticks the first cell lasts\n\
            \x20 TICK-RATE 1 to 100000000: ticks a second\n\
            \x20 TO-CELL 16 to 8388607: how many ticks the cells last in the end\n\
            \x20 STEP 0 to CELL/8: ticks by which each cell changes; at most TO-CELL/8 too",
            "",
            "",
        ),
    ),
    (
        "ltc-load",
        (
            "  SEED 0 to 18446744073709551615: the same seed makes the same recording\n\
            \x20 WORDS 1 to 100000: how many words are made",
            "",
            "",
        ),
    ),
    (
        "chase",
        (
            "  COUNT 24|25|30|30d: how labels are counted; 30d is 30 with drop-frame\n\
            \x20 LABEL HH:MM:SS:FF: a label of the count; with 30d in quotes, 'HH:MM:SS;FF'",
            "",
            "",
        ),
    ),
    (
        "ltc-chase",
        (
            "  COUNT 24|25|30|30d: how labels are counted; 30d is 30 with drop-frame\n\
            \x20 LABEL HH:MM:SS:FF: a label of the count; with 30d in quotes, 'HH:MM:SS;FF'\n\
            \x20 LIMIT 0 to 255: at most this many missing frames in a row are invented\n\
            \x20 SEED 0 to 18446744073709551615: the seed of the slips\n\
            \x20 BOUND 0 to 1000: the greatest slip, in eightieths of a frame\n\
            \x20 worn|rough: words are read as ltc-worn or ltc-rough reads them\n\
            \x20 firm|consecutive|counted: which other word each word needs beside it",
            "",
            "",
        ),
    ),
    (
        "luma-vitc",
        (
            "  SYSTEM 25|30: frames a second\n\
            \x20 WIDTH 360 to 4096: pixels in a row\n\
            \x20 HEIGHT 1 to 4096: rows in a field\n\
            \x20 FIRST 0 to HEIGHT-1: the first row that is looked at; the top row is 0\n\
            \x20 ROWS 1 to 40: how many rows are looked at; FIRST + ROWS is at most HEIGHT",
            "",
            "",
        ),
    ),
    (
        "vitc-make",
        (
            "  COUNT 25|30|30d: how labels are counted; 30d is 30 with drop-frame\n\
            \x20 LABEL HH:MM:SS:FF: a label of the count; with 30d in quotes, 'HH:MM:SS;FF'\n\
            \x20 FRAMES 1 to 1000000: how many frames\n\
            \x20 LENGTH 460 to 65535: how many ticks a line lasts",
            "",
            "",
        ),
    ),
    (
        "number",
        (
            "  COUNT 24|25|30|30d: how labels are counted; 30d is 30 with drop-frame\n\
            \x20 LABEL HH:MM:SS:FF: a label of the count; with 30d in quotes, 'HH:MM:SS;FF'",
            "",
            "",
        ),
    ),
    (
        "label",
        (
            "  COUNT 24|25|30|30d: how labels are counted; 30d is 30 with drop-frame\n\
            \x20 NUMBER 0 to the last of the day: how many labels come before it in the day",
            "",
            "",
        ),
    ),
    (
        "labels",
        (
            "  COUNT 24|25|30|30d: how labels are counted; 30d is 30 with drop-frame\n\
            \x20 ntsc: after 24 or 30: at 1000/1001 of that rate\n\
            \x20 column|csv: labels are in COLUMNS, parted by blanks or commas; all else stays\n\
            \x20 COLUMNS 1 to 4096|N-M: a column of each line, or those from N to M\n\
            \x20 WAY number|label|seconds|length: what is written for each line or label\n\
            \x20 WAY plus|minus: the label that is N labels later or earlier\n\
            \x20 N 0 to 4294967295|HH:MM:SS:FF: how many labels, or the label of that number\n\
            \x20 WAY since: how many labels it is from LABEL, the shortest way and forward\n\
            \x20 LABEL HH:MM:SS:FF: that label, after since\n\
            \x20 WAY to: what another count shows at that moment, to thousandths of a frame\n\
            \x20 COUNT 24|25|30|30d: that count, after to; ntsc may follow 24 or 30\n\
            \x20 WAY sum: without columns: the sum of all lines, in frames and as a label",
            "",
            "",
        ),
    ),
    (
        "help",
        (
            "  COMMAND ",
            "ltc-read|ltc-worn|ltc-rough",
            ": the words of a recording",
        ),
    ),
    (
        "help",
        (
            "  COMMAND ",
            "ltc-fly|ltc-spans|ltc-mtc|ltc-jam|ltc-chase",
            ": its frames",
        ),
    ),
    (
        "help",
        (
            "  COMMAND ",
            "pcm-ltc|wav-ltc|ltc-pcm|ltc-convert|ltc-make|ltc-load",
            ": recordings",
        ),
    ),
    (
        "help",
        (
            "  COMMAND ",
            "mtc-read|vitc-read|luma-vitc|vitc-make|chase",
            ": MIDI, pictures, scripts",
        ),
    ),
    (
        "help",
        (
            "  COMMAND ",
            "number|label|labels|help|version",
            ": labels, and tc itself",
        ),
    ),
    (
        "help",
        (
            "  ",
            "statuses",
            ": what each exit number means, and what to do",
        ),
    ),
];
