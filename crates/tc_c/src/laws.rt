//! What follows from the definitions alone.
ghost use Rattle.std.specs.Prelude.{◌≡◌, ◌<◌, ◌^◌, ℕ, Ok};
ghost use Rattle.flywheel.specs.declared.frame.Frame.{Frame};
ghost use Rattle.flywheel.specs.declared.heard.HeardWord.{HeardWord};
ghost use Rattle.ltc_word.specs.declared.word.LtcWord.{LtcWord};
ghost use Rattle.sound_reader.specs.declared.settings.SoundSettings.{SoundSettings};
ghost use Rattle.sound_reader.specs.declared.slicer_settings.SlicerSettings.{SlicerSettings};
ghost use Rattle.sound_reader.specs.Settings.{AreInRange};
ghost use Rattle.sound_reader.specs.Slicer.{CanSlice};
ghost use Rattle.tape_reader.specs.declared.settings.TapeSettings.{TapeSettings};
ghost use Rattle.tc_address.specs.Count.{system_with};
ghost use Rattle.tc_address.specs.Label.{Address};
ghost use Rattle.tc_bits.specs.Fields.{IsFields};
ghost use Rattle.vitc_line.specs.declared.word.VitcWord.{VitcWord};
ghost use Rattle.vitc_line.specs.Places.{HasLines};
ghost use Rattle.vitc_line.specs.Spelled.{line_of};
ghost use Rattle.vitc_reader.specs.Field.{IsSaid};
ghost use Rattle.vitc_reader.specs.Runs.{IsLineLength, MayBeLine};
ghost use Rattle.vitc_reader.specs.Written.{runs_in};
ghost use Rattle.tc_c.specs.CFrame.{c_frame, HasLabel, MeansFrame, MeansHeard};
ghost use Rattle.tc_c.specs.CLabel.{MeansLabel};
ghost use Rattle.tc_c.specs.CLine.{c_line_word, MeansLineWord};
ghost use Rattle.tc_c.specs.CSettings.{Means, MeansSlicer, MeansTape};
ghost use Rattle.tc_c.specs.CWord.{MeansWord};
ghost use Rattle.tc_c.specs.declared.frame.TcFrame.{TcFrame};
ghost use Rattle.tc_c.specs.declared.heard.TcHeard.{TcHeard};
ghost use Rattle.tc_c.specs.declared.label.TcLabel.{TcLabel};
ghost use Rattle.tc_c.specs.declared.settings.TcSettings.{TcSettings};
ghost use Rattle.tc_c.specs.declared.slicer_settings.TcSlicerSettings.{TcSlicerSettings};
ghost use Rattle.tc_c.specs.declared.tape_settings.TcTapeSettings.{TcTapeSettings};
ghost use Rattle.tc_c.specs.declared.word.TcWord.{TcWord};

use vitc_line::laws::each_word_has_its_line;
use vitc_reader::laws::each_line_has_its_runs;

/// Numbers mean one settings at most, of those in range.
pub fn numbers_mean_one_settings()
    ensures { (numbers : TcSettings) (s t : SoundSettings) → AreInRange s → AreInRange t → Means numbers s
        → Means numbers t → s ≡ t }
{}

/// Numbers mean one way to read a tape at most.
pub fn numbers_mean_one_way_to_read_a_tape()
    ensures { (numbers : TcTapeSettings) (s t : TapeSettings) → MeansTape numbers s → MeansTape numbers t → s ≡ t }
{}

/// Numbers mean one way to slice a sound at most, of those in range.
pub fn numbers_mean_one_way_to_slice()
    ensures { (numbers : TcSlicerSettings) (s t : SlicerSettings) → CanSlice s → CanSlice t → MeansSlicer numbers s
        → MeansSlicer numbers t → s ≡ t }
{}

/// Numbers mean one word that was heard at most.
pub fn numbers_mean_one_heard_word()
    ensures { (numbers : TcHeard) (v w : HeardWord) → MeansHeard numbers v → MeansHeard numbers w → v ≡ w }
{}

/// Numbers mean one label at most.
pub fn numbers_mean_one_label()
    ensures { (numbers : TcLabel) (a b : Address) → MeansLabel numbers a → MeansLabel numbers b → a ≡ b }
{}

/// Numbers mean one word at most.
pub fn numbers_mean_one_word()
    ensures { (numbers : TcWord) (a b : LtcWord) → MeansWord numbers a → MeansWord numbers b → a ≡ b }
{}

/// Numbers mean one frame at most.
pub fn numbers_mean_one_frame()
    ensures { (numbers : TcFrame) (f g : Frame) → MeansFrame numbers f → MeansFrame numbers g → f ≡ g }
{}

/// The numbers of a frame, as a flywheel writes them, mean that frame.
pub fn a_frame_in_numbers_means_it()
    ensures { (f : Frame) → HasLabel f → MeansFrame (c_frame f) f }
{}

/// Numbers mean one word of a line at most.
pub fn numbers_mean_one_word_of_a_line()
    ensures { (numbers : TcWord) (a b : VitcWord) → MeansLineWord numbers a → MeansLineWord numbers b → a ≡ b }
{}

/// The numbers of a word, as a line that says it is read, mean that word.
pub fn a_word_of_a_line_in_numbers_means_it()
    ensures { (word : VitcWord) → HasLines (system_with word.fields.label.count) → IsFields word.fields
        → MeansLineWord (c_line_word word) word }
{}

/// The runs of the line of a word may be a line's, and are read as that word.
pub fn a_line_that_is_written_is_read()
    ensures line { (numbers : TcWord) (word : VitcWord) (n : ℕ) → MeansLineWord numbers word
        → word.fields.user < 2 ^ 32 → IsLineLength n → MayBeLine (runs_in n (line_of word)) }
    ensures word { (numbers : TcWord) (word : VitcWord) (n : ℕ) → MeansLineWord numbers word
        → word.fields.user < 2 ^ 32 → IsLineLength n
        → IsSaid (system_with word.fields.label.count) n (runs_in n (line_of word)) (Ok word) }
{
    each_word_has_its_line();
    each_line_has_its_runs();
}
