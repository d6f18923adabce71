//! The last lines of the reports. Read next: `line_text/src/line.rt`.
ghost use Rattle.std.specs.Prelude.{◌≡◌, ◌<◌, ◌^◌};
ghost use Rattle.report_text.specs.FrameTexts.{fly_end_line};
ghost use Rattle.report_text.specs.Texts.{read_end_line};

use line_text::{Text, push_bytes, push_count, push_ticks};

/// The last line of a reading: the numbers of intervals, of words, of refused words and of breaks,
/// and the sum of the intervals in ticks.
pub fn read_end_text(intervals: u64, words: u64, refused: u64, lost: u64, ticks: u64) -> Text
    requires intervals { intervals < 2 ^ 40 }
    requires words { words < 2 ^ 40 }
    requires refused { refused < 2 ^ 40 }
    requires lost { lost < 2 ^ 40 }
    requires ticks { ticks < 2 ^ 60 }
    ensures { result.items ≡ read_end_line intervals words refused lost ticks }
{
    let mut line = Text::new();
    push_bytes(&mut line, b"end intervals ");
    push_count(&mut line, intervals);
    push_bytes(&mut line, b" words ");
    push_count(&mut line, words);
    push_bytes(&mut line, b" refused ");
    push_count(&mut line, refused);
    push_bytes(&mut line, b" lost ");
    push_count(&mut line, lost);
    push_bytes(&mut line, b" ticks ");
    push_ticks(&mut line, ticks);
    push_bytes(&mut line, b"\n");
    line
}

/// The last line of the frames of a recording: the numbers of intervals, of heard and of invented
/// frames and of ends of invention, and the sum of the intervals in ticks.
pub fn fly_end_text(intervals: u64, heard: u64, invented: u64, gone: u64, ticks: u64) -> Text
    requires intervals { intervals < 2 ^ 40 }
    requires heard { heard < 2 ^ 40 }
    requires invented { invented < 2 ^ 40 }
    requires gone { gone < 2 ^ 40 }
    requires ticks { ticks < 2 ^ 60 }
    ensures { result.items ≡ fly_end_line intervals heard invented gone ticks }
{
    let mut line = Text::new();
    push_bytes(&mut line, b"end intervals ");
    push_count(&mut line, intervals);
    push_bytes(&mut line, b" heard ");
    push_count(&mut line, heard);
    push_bytes(&mut line, b" invented ");
    push_count(&mut line, invented);
    push_bytes(&mut line, b" gone ");
    push_count(&mut line, gone);
    push_bytes(&mut line, b" ticks ");
    push_ticks(&mut line, ticks);
    push_bytes(&mut line, b"\n");
    line
}
