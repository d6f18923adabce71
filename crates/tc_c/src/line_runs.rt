//! The word of a line in numbers, and its runs.
ghost use Rattle.std.specs.Prelude.{◌≡◌, ◌≤◌, ◌↔◌, IsTrue, Some, IfSome, length, take, drop};
ghost use Rattle.tc_address.specs.Count.{system_with};
ghost use Rattle.vitc_line.specs.declared.word.VitcWord.{VitcWord};
ghost use Rattle.vitc_line.specs.Places.{HasLines};
ghost use Rattle.vitc_line.specs.Spelled.{line_of};
ghost use Rattle.vitc_reader.specs.Runs.{IsLineLength};
ghost use Rattle.vitc_reader.specs.Written.{runs_in};
ghost use Rattle.tc_c.specs.CLine.{MeansLineWord};

use crate::word::TcWord;
use tc_address::Count;
use vitc_line::laws::{each_word_has_its_line, spelling_is_exact};
use vitc_line::{VitcWord, encode};
use vitc_reader::runs_of;

impl TcWord {
    /// The word of a line that they mean, where they mean one.
    pub(crate) fn line_meaning(&self) -> Option<VitcWord>
        ensures means { IfSome result (MeansLineWord self.now) }
        ensures only { (word : VitcWord) → MeansLineWord self.now word → result ≡ Some word }
    {
        let word = self.meaning()?;
        if !has_lines(word.fields.label().count()) {
            return None;
        }
        Some(VitcWord {
            fields: word.fields,
            field_mark: word.balanced,
        })
    }
}

/// Tells whether pictures of this count have lines with time code.
fn has_lines(count: Count) -> bool
    ensures { IsTrue result ↔ HasLines (system_with count) }
{
    match count {
        Count::C24 => false,
        Count::C25 | Count::C30 | Count::Drop30 => true,
    }
}

/// Writes the runs of the line of a word, and gives how many these are.
pub(crate) fn write_runs(word: &VitcWord, line_length: u32, runs: &mut [u16]) -> usize
    requires lines { HasLines (system_with word.now.fields.label.count) }
    requires long { IsLineLength line_length }
    requires room { 89 ≤ length runs.old }
    ensures some { 1 ≤ result }
    ensures most { result ≤ 89 }
    ensures writes { take result runs.new ≡ runs_in line_length (line_of word.now) }
    ensures rest { drop result runs.new ≡ drop result runs.old }
{
    each_word_has_its_line();
    spelling_is_exact();
    let mut room = [0; 90];
    let made = runs_of(line_length, encode(word), &mut room);
    runs[..made].copy_from_slice(&room[..made]);
    made
}
