//! How each command is typed, for the lines of help.

/// The word of each command and what follows it in its line of `help`, a row a command. A word in capitals is a
/// value, what is in brackets may be left out, and of words with a bar between them one is given, and so of ways
/// with a bar between them.
pub static USAGES: [(&str, &str); 24] = [
    ("ltc-read", ""),
    ("ltc-worn", ""),
    ("ltc-rough", " [firm|consecutive|counted]"),
    ("ltc-fly", " LIMIT [worn|rough [firm|consecutive|counted]]"),
    (
        "ltc-spans",
        " LIMIT [worn|rough [firm|consecutive|counted]]",
    ),
    ("ltc-mtc", " LIMIT [worn|rough [firm|consecutive|counted]]"),
    (
        "ltc-jam",
        " LIMIT CELL TICK-RATE [worn|rough [firm|consecutive|counted]]",
    ),
    ("ltc-convert", " VERSION"),
    (
        "pcm-ltc",
        " SYSTEM RATE THRESHOLD [FINENESS path | [FINENESS [follow|deep [SMOOTH]]] [live]]",
    ),
    (
        "wav-ltc",
        " SYSTEM TRACK THRESHOLD [path | [SMOOTH [deep]] [live]]",
    ),
    ("ltc-pcm", " LEVEL"),
    (
        "ltc-make",
        " COUNT DIRECTION LABEL FRAMES CELL TICK-RATE [TO-CELL STEP]",
    ),
    ("ltc-load", " SEED WORDS"),
    ("mtc-read", ""),
    ("chase", " COUNT LABEL"),
    (
        "ltc-chase",
        " COUNT LABEL LIMIT SEED BOUND [worn|rough [firm|consecutive|counted]]",
    ),
    ("vitc-read", ""),
    ("luma-vitc", " SYSTEM WIDTH HEIGHT FIRST ROWS"),
    ("vitc-make", " COUNT LABEL FRAMES LENGTH"),
    ("number", " COUNT LABEL"),
    ("label", " COUNT NUMBER"),
    ("labels", " COUNT [ntsc] [column|csv COLUMNS] WAY"),
    ("help", " [COMMAND|statuses]"),
    ("version", ""),
];
