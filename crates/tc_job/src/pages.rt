//! What `help` says of each command, and of the exit numbers: a row for each line, with the command or `statuses`.
//! The tables are `static`, since each proof about a function that names a `const` has the whole value in it.
//! Read next: `values`, the lines of values.
use crate::page_line::PageLine;

/// What each command does.
pub static SAID: [(&str, PageLine); 24] = [
    (
        "ltc-read",
        (
            "Reads a recording and writes a line for each word, forward or backward, for\n\
            each refused word, and for each break of the code. The last line counts them.\n\
            Standard input is an interval file; a sound file goes through wav-ltc first.",
            "",
            "",
        ),
    ),
    (
        "ltc-worn",
        (
            "The same as ltc-read with the wider tolerance of worn tapes: neighbouring cells\n\
            may differ by a sixth.\n\
            Standard input is an interval file; a sound file goes through wav-ltc first.",
            "",
            "",
        ),
    ),
    (
        "ltc-rough",
        (
            "The same as ltc-read with the tolerance of hissy and dull tapes: a cell may\n\
            differ by a quarter from the mean of the latest four.\n\
            Standard input is an interval file; a sound file goes through wav-ltc first.",
            "",
            "",
        ),
    ),
    (
        "ltc-fly",
        (
            "Writes a line for each frame of a recording. Missing frames are invented, and\n\
            each of them is marked.\n\
            Standard input is an interval file; a sound file goes through wav-ltc first.",
            "",
            "",
        ),
    ),
    (
        "ltc-spans",
        (
            "Writes what is on a tape: a line for each span, where the labels of the frames\n\
            count on, and between two spans a line with the gap.\n\
            Standard input is an interval file; a sound file goes through wav-ltc first.",
            "",
            "",
        ),
    ),
    (
        "ltc-mtc",
        (
            "Writes the frames of a recording as MIDI Time Code: a full message where they\n\
            begin, and then four quarter frames for each frame.\n\
            Standard input is an interval file; a sound file goes through wav-ltc first.",
            "",
            "",
        ),
    ),
    (
        "ltc-jam",
        (
            "Writes a clean copy of a recording: its frames as an interval file, in cells of\n\
            one length. User bits, flags and gaps are not kept.\n\
            Standard input is an interval file; a sound file goes through wav-ltc first.",
            "",
            "",
        ),
    ),
    (
        "ltc-convert",
        (
            "Writes an interval file in the version that is asked for, with the same system,\n\
            tick rate and intervals.\n\
            Standard input is an interval file.",
            "",
            "",
        ),
    ),
    (
        "pcm-ltc",
        (
            "Writes an interval file of the time code in raw sound.\n\
            Standard input is raw samples: one channel, 16 bits with a sign, the less\n\
            significant byte first. A sound file goes to wav-ltc.",
            "",
            "",
        ),
    ),
    (
        "wav-ltc",
        (
            "Writes an interval file of the time code on a track of a sound file, with 16\n\
            ticks a sample.\n\
            Standard input is a sound file of whole numbers: WAV, BWF, RF64 or BW64. Floats\n\
            and compressed sound go through sox or ffmpeg first. An interval file goes to\n\
            ltc-read.",
            "",
            "",
        ),
    ),
    (
        "ltc-pcm",
        (
            "Writes a recording as raw samples of one size, to be played at its tick rate.\n\
            Standard input is an interval file; a sound file goes through wav-ltc first.",
            "",
            "",
        ),
    ),
    (
        "ltc-make",
        (
            "Writes an interval file of FRAMES frames, from LABEL on. Nothing is read.",
            "",
            "",
        ),
    ),
    (
        "ltc-load",
        (
            "Makes a recording whose speed varies by chance, reads it, and writes one line\n\
            about what was read. Nothing is read from standard input.",
            "",
            "",
        ),
    ),
    (
        "mtc-read",
        (
            "Writes a line for each label in MIDI bytes: one for each full message, and one\n\
            for eight quarter frames. Everything else is skipped.\n\
            Standard input is MIDI bytes.",
            "",
            "",
        ),
    ),
    (
        "chase",
        (
            "Writes the trace of a transport that starts at LABEL and follows the master of\n\
            a script, a line for each frame.\n\
            Standard input is the script, a text.",
            "",
            "",
        ),
    ),
    (
        "ltc-chase",
        (
            "Writes the trace of a transport that starts at LABEL and follows the frames of\n\
            a recording, as ltc-fly writes them. At each step it slips by chance.\n\
            Standard input is an interval file; a sound file goes through wav-ltc first.",
            "",
            "",
        ),
    ),
    (
        "vitc-read",
        (
            "Writes a line for each field: the word on which its lines agree, two words that\n\
            conflict, or why no line gives one.\n\
            Standard input is a line file; a picture goes through luma-vitc first.",
            "",
            "",
        ),
    ),
    (
        "luma-vitc",
        (
            "Writes what the rows of a picture say as a line file, for vitc-read.\n\
            Standard input is fields of gray pixels, row after row; a byte of 255 is white.",
            "",
            "",
        ),
    ),
    (
        "vitc-make",
        (
            "Writes a line file of FRAMES frames, from LABEL on: two fields for each frame,\n\
            of two equal lines each. Nothing is read.",
            "",
            "",
        ),
    ),
    (
        "number",
        (
            "Writes how many labels of the count come before the label in a day.",
            "",
            "",
        ),
    ),
    (
        "label",
        (
            "Writes the label of a number in the day of the count.",
            "",
            "",
        ),
    ),
    (
        "labels",
        (
            "Writes a line for each line of a text: what WAY asks of the label in it. A line\n\
            has a label of the count, the number of one in the day, or seconds since\n\
            midnight with three decimals, as in 3600.040. With columns any text passes, and\n\
            the answer takes the place of each label in COLUMNS; numbers there stay. Of two\n\
            columns, or the first two, length puts in the place of the last label how far\n\
            it is from the first one: as a label, and in frames. Without columns, sum is\n\
            one line at the end: all labels added up, in frames and as a label.\n\
            Standard input is the text. WAY is one of these words, with what follows it.",
            "",
            "",
        ),
    ),
    (
        "help",
        (
            "Writes how each command is typed, a line for each. With one more word it tells\n\
            about a command, with its values and examples, or about the exit numbers.",
            "",
            "",
        ),
    ),
    ("version", ("Writes which version of tc this is.", "", "")),
];

/// Its examples, with its words in the middle, each after a space.
pub static EXAMPLES: [(&str, PageLine); 34] = [
    ("ltc-read", ("Example: tc ltc-read", "", " < tape.ltci")),
    (
        "ltc-read",
        (
            "Example: tc wav-ltc 25 1 250 < tape.wav | tc ltc-read",
            "",
            "",
        ),
    ),
    ("ltc-worn", ("Example: tc ltc-worn", "", " < tape.ltci")),
    ("ltc-rough", ("Example: tc ltc-rough", "", " < tape.ltci")),
    (
        "ltc-rough",
        (
            "Example: tc wav-ltc 25 1 250 < tape.wav | tc ltc-rough",
            " firm",
            "",
        ),
    ),
    (
        "ltc-fly",
        ("Example: tc ltc-fly", " 2 rough", " < tape.ltci"),
    ),
    (
        "ltc-spans",
        (
            "Example: tc wav-ltc 25 1 250 < tape.wav | tc ltc-spans",
            " 2 rough",
            "",
        ),
    ),
    (
        "ltc-mtc",
        ("Example: tc ltc-mtc", " 2 rough", " < tape.ltci > tape.mtc"),
    ),
    (
        "ltc-jam",
        (
            "Example: tc ltc-jam",
            " 2 24 48000 rough",
            " < tape.ltci > clean.ltci",
        ),
    ),
    (
        "ltc-convert",
        ("Example: tc ltc-convert", " 2", " < tape.ltci > short.ltci"),
    ),
    (
        "pcm-ltc",
        (
            "Example: tc pcm-ltc",
            " 25 48000 250 16 follow 2",
            " < tape.raw > tape.ltci",
        ),
    ),
    (
        "pcm-ltc",
        (
            "Example: tc pcm-ltc",
            " 25 48000 250 16 path",
            " < tape.raw > tape.ltci",
        ),
    ),
    (
        "wav-ltc",
        (
            "Example: tc wav-ltc",
            " 25 1 250 2 deep",
            " < tape.wav > tape.ltci",
        ),
    ),
    (
        "wav-ltc",
        (
            "Example: tc wav-ltc",
            " 25 1 250",
            " < tape.wav | tc ltc-rough",
        ),
    ),
    (
        "ltc-pcm",
        ("Example: tc ltc-pcm", " 8192", " < tape.ltci > tape.raw"),
    ),
    (
        "ltc-make",
        (
            "Example: tc ltc-make",
            " 25 forward 01:00:00:00 1500 24 48000",
            " > tape.ltci",
        ),
    ),
    (
        "ltc-make",
        (
            "Example: tc ltc-make",
            " 25 forward 01:00:00:00 1500 24 48000 48 1",
            " > slower.ltci",
        ),
    ),
    ("ltc-load", ("Example: tc ltc-load", " 53 100", "")),
    ("mtc-read", ("Example: tc mtc-read", "", " < tape.mtc")),
    (
        "chase",
        ("Example: tc chase", " 25 01:00:00:00", " < script.csv"),
    ),
    (
        "ltc-chase",
        (
            "Example: tc ltc-chase",
            " 25 01:00:00:00 2 1 8 rough",
            " < tape.ltci",
        ),
    ),
    ("vitc-read", ("Example: tc vitc-read", "", " < tape.vitl")),
    (
        "luma-vitc",
        (
            "Example: tc luma-vitc",
            " 25 720 288 0 40",
            " < fields.gray > tape.vitl",
        ),
    ),
    (
        "vitc-make",
        (
            "Example: tc vitc-make",
            " 25 01:00:00:00 100 1728",
            " > tape.vitl",
        ),
    ),
    ("number", ("Example: tc number", " 25 01:00:00:00", "")),
    ("label", ("Example: tc label", " 25 90000", "")),
    (
        "labels",
        ("Example: tc labels", " 25 number", " < labels.txt"),
    ),
    (
        "labels",
        ("Example: echo 10:00:00:00 | tc labels", " 25 plus 250", ""),
    ),
    (
        "labels",
        (
            "Example: tc labels",
            " 25 since 01:00:00:00",
            " < labels.txt",
        ),
    ),
    (
        "labels",
        ("Example: tc labels", " 30 ntsc to 24 ntsc", " < labels.txt"),
    ),
    (
        "labels",
        (
            "Example: tc labels",
            " 25 column 7-8 plus 01:00:00:00",
            " < list.edl",
        ),
    ),
    ("help", ("Example: tc help", " ltc-read", "")),
    ("help", ("Example: tc help", " statuses", "")),
    ("version", ("Example: tc version", "", "")),
];

/// Each exit number and what it means, with the beginning of its notes in the middle.
pub static EXIT_NUMBERS: [(&str, PageLine); 8] = [
    (
        "statuses",
        (
            "0  ",
            "",
            "done: the input was read to its end, and the whole output was written.",
        ),
    ),
    (
        "statuses",
        (
            "2  ",
            "tc: usage: ",
            "..  The words name no job; nothing was read or written.\n\
            \x20  Compare them with tc help COMMAND. Word 0 is the command. A file is not a\n\
            \x20  word: it is given with <, as in tc ltc-read < tape.ltci.",
        ),
    ),
    (
        "statuses",
        (
            "3  ",
            "tc: refused: ",
            "..  The input breaks its format at the place that is named.\n\
            \x20  magic at byte 0: another kind of file; a sound file goes to wav-ltc, and an\n\
            \x20  interval file to ltc-read. truncated: the end is cut off. What came before\n\
            \x20  that byte was read and written, but for a word that still waits with firm,\n\
            \x20  consecutive or counted; of a script nothing is written.",
        ),
    ),
    (
        "statuses",
        (
            "4  ",
            "tc: read fault",
            "  Standard input failed: look at its disk or device.",
        ),
    ),
    (
        "statuses",
        (
            "5  ",
            "tc: write fault",
            "  Standard output failed: a full disk, or a closed pipe.\n\
            \x20  What was written is the beginning of the output.",
        ),
    ),
    (
        "statuses",
        (
            "6  ",
            "tc: out of memory",
            "  There was no memory: see ulimit -v.",
        ),
    ),
    (
        "statuses",
        (
            "7  ",
            "tc: limit",
            "  The input is longer than the command takes: cut it into files.",
        ),
    ),
    (
        "statuses",
        (
            "8  ",
            "",
            "no note: an argument is not text in UTF-8. Look for a byte above 7f.",
        ),
    ),
];
