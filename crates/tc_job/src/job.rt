//! What the words name.
use crate::chase_run::ChaseRun;
use crate::column_run::ColumnRun;
use crate::flight::Flight;
use crate::jam::Jam;
use crate::label_run::LabelRun;
use crate::line_stripe::LineStripe;
use crate::load_run::LoadRun;
use crate::luma_run::LumaRun;
use crate::path_slicing::PathSlicing;
use crate::slicing::Slicing;
use crate::sound_level::SoundLevel;
use crate::stripe::Stripe;
use crate::track_path::TrackPath;
use crate::wave_slicing::WaveSlicing;
use crate::witness::Witness;
use interval_file::FileVersion;
use label_lines::Timebase;
use tc_address::Label;

/// What the words name.
#[derive(Clone, Copy)]
pub enum Task {
    /// A job that is worked while its input comes, in fixed memory.
    Stream(Job),
    /// `chase COUNT LABEL`: reads a chase script, and writes the trace of a chase that begins at the label.
    /// The script is read whole before anything is written.
    Chase { label: Label },
}

/// What the program is to do while its input comes.
#[derive(Clone, Copy)]
pub enum Job {
    /// `ltc-read`: reads an interval file, and writes a line for each word, refused candidate and break.
    LtcRead,
    /// `ltc-worn`: the same under the tolerance of worn recordings.
    LtcWorn,
    /// `ltc-rough [firm|consecutive|counted]`: the same under the tolerance of hissy and dull recordings; and each
    /// word is asked for a witness, or for one or the next word, or for nothing.
    LtcRough { witness: Witness },
    /// `ltc-fly LIMIT [worn|rough [firm|consecutive|counted]]`: reads an interval file, and writes a line for each
    /// frame of its words, with at most this many invented frames in a row.
    LtcFly { flight: Flight },
    /// `ltc-spans LIMIT [worn|rough [firm|consecutive|counted]]`: reads an interval file, and writes a line for each
    /// span of the same frames, and for each gap between two.
    LtcSpans { flight: Flight },
    /// `ltc-mtc LIMIT [worn|rough [firm|consecutive|counted]]`: reads an interval file, and writes MIDI Time Code of
    /// the same frames.
    LtcMtc { flight: Flight },
    /// `ltc-jam LIMIT CELL TICK-RATE [worn|rough [firm|consecutive|counted]]`: reads an interval file, and writes the
    /// same frames anew as an interval file of cells of one length.
    LtcJam { jam: Jam },
    /// `ltc-chase COUNT LABEL LIMIT SEED BOUND [worn|rough [firm|consecutive|counted]]`: reads an interval file, and
    /// writes the steps of a chase that begins at the label and follows the same frames.
    LtcChase { run: ChaseRun },
    /// `mtc-read`: reads MIDI bytes, and writes a line for each label of MIDI Time Code in them, and for
    /// each address that is no label.
    MtcRead,
    /// `ltc-make COUNT DIRECTION LABEL FRAMES CELL TICK-RATE [TO-CELL STEP]`: makes an interval file of
    /// these frames.
    LtcMake { stripe: Stripe },
    /// `ltc-load SEED WORDS`: makes a recording of this many words by chance, reads it, and writes one line.
    LtcLoad { run: LoadRun },
    /// `ltc-convert VERSION`: reads an interval file, and writes it in this version.
    LtcConvert { version: FileVersion },
    /// `pcm-ltc SYSTEM RATE THRESHOLD [FINENESS [follow|deep [SMOOTH]]] [live]`: reads samples of sound, and
    /// writes an interval file of the distances of their crossings.
    PcmLtc { slicing: Slicing },
    /// `pcm-ltc SYSTEM RATE THRESHOLD FINENESS path`: the same of the cells of the best path through the
    /// sound.
    PcmPath { path: PathSlicing },
    /// `wav-ltc SYSTEM TRACK THRESHOLD [SMOOTH [deep]] [live]`: reads a sound file, and writes an interval
    /// file of the distances of the crossings of a track.
    WavLtc { slicing: WaveSlicing },
    /// `wav-ltc SYSTEM TRACK THRESHOLD path`: the same of the cells of the best path through the track.
    WavPath { path: TrackPath },
    /// `ltc-pcm LEVEL`: reads an interval file, and writes it as samples of sound.
    LtcPcm { level: SoundLevel },
    /// `vitc-read`: reads a line file, and writes a line for each field.
    VitcRead,
    /// `luma-vitc SYSTEM WIDTH HEIGHT FIRST ROWS`: reads fields of gray pixels, and writes a line file of
    /// what their rows say.
    LumaVitc { run: LumaRun },
    /// `vitc-make COUNT LABEL FRAMES LENGTH`: makes a line file of these frames.
    VitcMake { stripe: LineStripe },
    /// `number COUNT LABEL`: writes how many labels of the count come before the label in the day.
    Number { label: Label },
    /// `label COUNT NUMBER`: writes the label of that number of the day.
    LabelOf { label: Label },
    /// `labels COUNT [ntsc] WAY`: reads lines that say labels, and writes a line for each: its number, its
    /// text, the label further on or back, the way since a label, its seconds, or the label that is shown
    /// then under another count.
    Labels { run: LabelRun },
    /// `labels COUNT [ntsc] column|csv COLUMNS WAY`: reads a text of any lines, and writes it with the answers in
    /// the place of the labels in these columns of each line. `labels COUNT [ntsc] length` is one of these too.
    Columns { run: ColumnRun },
    /// `labels COUNT [ntsc] sum`: reads lines that say labels, and writes one line at their end: how many frames they
    /// are together, and the label that they are without an end of the day.
    Sum { base: Timebase },
    /// `help`: writes how each command is typed, and where the manual is.
    Help,
    /// `help COMMAND`: writes of the command how it is typed, what it does, its values and examples. The page
    /// is that of the row with this number in `USAGES`, from 0 on.
    HelpOf { page: usize },
    /// `help statuses`: writes what each exit number means, and what to do.
    HelpStatuses,
    /// `version`: writes which version of the program this is.
    Version,
}
