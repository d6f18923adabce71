//! What follows from the definitions alone: that a text is answered line by line, and what is answered to answers.
ghost use Rattle.std.specs.Prelude.{◌≡◌, ℕ, ◌+◌, ◌*◌, ◌/◌, ◌<◌, ◌≤◌, List, [], ◌∷◌, ◌++◌, Option, Some};
ghost use Rattle.std.specs.Prelude.{codes, decimal, drop, length, pos, Ok};
ghost use Rattle.label_command.specs.AnsweredAgain.{IsAnsweredAgain, Writes};
ghost use Rattle.label_command.specs.Labels.{IsRefusedAtALine, along_labels, answers};
ghost use Rattle.label_command.specs.Sums.{along_sum, rest_of, sum_line, sum_of, whole_label};
ghost use Rattle.label_command.specs.ThereAndBack.{BeginBefore, BeginTogether, IsAsFast, IsLabelOf};
ghost use Rattle.label_command.specs.TextLines.{HasLines, IsFirstRefused, IsLine, SayLabels};
ghost use Rattle.label_lines.specs.declared.timebase.Timebase.{Timebase};
ghost use Rattle.label_lines.specs.declared.way.Way.{Way};
ghost use Rattle.label_lines.specs.declared.way.Way.TheVariants.{Label, Plus, To};
ghost use Rattle.label_lines.specs.Answer.{answer, label_from_midnight};
ghost use Rattle.label_lines.specs.Line.{read_line};
ghost use Rattle.label_lines.specs.Timebase.{count_of, rate_of};
ghost use Rattle.label_text.specs.declared.fault.LineFault.{LineFault};
ghost use Rattle.label_text.specs.declared.reader.TheConstants.{MAX_LINES};
ghost use Rattle.real_time.specs.Moment.{shown_at};
ghost use Rattle.tc_address.specs.declared.count.Count.{Count};
ghost use Rattle.tc_address.specs.Label.{Address, IsLabel};
ghost use Rattle.tc_address.specs.Circle.{ahead};
ghost use Rattle.tc_address.specs.Numbering.{day_length, number_of, step};
ghost use Rattle.tc_address.specs.Spelling.{label_in, text_of};
ghost use Rattle.tc_command.specs.Meaning.{IsInput, Meaning};
ghost use Rattle.tc_command.specs.Stops.{StopsAlong};
ghost use Rattle.tc_command.specs.declared.input_fault.InputFault.{InputFault};
ghost use Rattle.tc_command.specs.declared.input_fault.InputFault.TheVariants.{Labels};
ghost use Rattle.tc_command.specs.declared.stop.Stop.TheVariants.{Limit, Refused};
ghost use Rattle.tc_job.specs.LabelRun.{LabelRunning};

use label_lines::laws::what_is_written_is_read;
use real_time::laws::a_frame_comes_back_from_a_faster_rate;
use tc_address::laws::{
    a_step_moves_the_number, a_text_is_read_as_its_label, number_and_label_are_inverse,
    steps_add_up,
};

/// Each text has a list of lines, and no other.
pub fn a_text_has_its_lines()
    ensures some { (text : List ℕ) → (lines : List (List ℕ)) × HasLines text lines }
    ensures one { (text : List ℕ) (a b : List (List ℕ)) → HasLines text a → HasLines text b → a ≡ b }
{}

/// The text of a label is a line that says it, and each answer is a line, of one byte at least.
pub fn texts_and_answers_are_lines()
    ensures text { (base : Timebase) (text : List ℕ) (a : Address) → label_in (count_of base) text ≡ Some a
        → IsLabel a × (a.count ≡ count_of base) × (read_line base text ≡ Ok a) × IsLine text × (0 < length text) }
    ensures answer { (base : Timebase) (way : Way) (a : Address) → IsLabel a → a.count ≡ count_of base
        → IsLine (answer base way a) × (0 < length (answer base way a)) }
{
    what_is_written_is_read();
    a_text_is_read_as_its_label();
    number_and_label_are_inverse();
}

/// Lines are answered one by one: all of them if each says a label, those before the first that says none, whose
/// place is given, and as many as are read.
pub fn lines_are_answered_one_by_one()
    ensures whole { (run : LabelRunning) (text : List ℕ) (lines : List (List ℕ)) (labels : List Address)
        → HasLines text lines → length lines ≤ MAX_LINES → SayLabels run.base lines labels
        → IsInput (along_labels run) text × Meaning.output (along_labels run) text (answers run labels) }
    ensures refused { (run : LabelRunning) (text : List ℕ) (lines : List (List ℕ)) (labels : List Address)
        (fault : LineFault) → HasLines text lines → IsFirstRefused run.base lines labels fault
        → fault.line ≤ MAX_LINES
        → StopsAlong (along_labels run) (Refused (Labels fault)) (Some []) text (answers run labels) }
    ensures told { (run : LabelRunning) (text written : List ℕ) (lines : List (List ℕ)) (left : Option (List ℕ))
        (fault : InputFault) → HasLines text lines
        → StopsAlong (along_labels run) (Refused fault) left text written
        → IsRefusedAtALine run lines fault written }
    ensures limit { (run : LabelRunning) (text : List ℕ) (lines before behind : List (List ℕ)) (line : List ℕ)
        (labels : List Address) → HasLines text lines → lines ≡ before ++ line ∷ behind
        → SayLabels run.base before labels → length before ≡ MAX_LINES
        → StopsAlong (along_labels run) Limit (Some []) text (answers run labels) }
{
    a_text_is_read_as_its_label();
    number_and_label_are_inverse();
}

/// What is answered in one way is answered again in another as a third way answers the text itself: sums add up, and
/// the same sum is undone. A sum of nothing is the label itself.
pub fn answers_are_answered_again()
    ensures again { (run : LabelRunning) (bytes written : List ℕ) → IsInput (along_labels run) bytes
        → Meaning.output (along_labels run) bytes written → IsAnsweredAgain run bytes written }
    ensures nothing { (base : Timebase) (bytes written : List ℕ) → Writes base Label bytes written
        → Writes base (Plus 0) bytes written }
{
    what_is_written_is_read();
    a_step_moves_the_number();
    steps_add_up();
    a_text_is_read_as_its_label();
    number_and_label_are_inverse();
}

/// So many frames as the length from a label to another lead from the one to the other, around the day.
pub fn a_length_leads_there()
    ensures { (from to : Address) → IsLabel from → IsLabel to → from.count ≡ to.count
        → step from (pos (ahead (day_length to.count) (number_of from) (number_of to))) ≡ to }
{
    a_step_moves_the_number();
    number_and_label_are_inverse();
}

/// A label lies as many frames after midnight as its number says. By `to`, it comes back from another count: from the
/// label that begins at the same moment, and, if the frames of that count run as fast or faster, from the one behind
/// that which is shown there, if that began before.
pub fn a_label_comes_back_from_a_faster_count()
    ensures midnight { (label : Address) → IsLabel label → label_from_midnight label.count (number_of label) ≡ label }
    ensures together { (base other : Timebase) (label there : Address) → IsLabelOf base label → IsLabelOf other there
        → BeginTogether other (number_of there) base (number_of label)
        → answer other (To base) there ≡ text_of label ++ codes " " ++ decimal 0 }
    ensures behind { (base other : Timebase) (label there : Address) → IsLabelOf base label → IsLabelOf other there
        → IsAsFast base other → (shown : ℕ) → number_of there ≡ shown + 1
        → shown ≡ shown_at (rate_of base) (number_of label) (rate_of other)
        → BeginBefore other shown base (number_of label)
        → (passed : ℕ) × (answer other (To base) there ≡ text_of label ++ codes " " ++ decimal passed) }
{
    a_frame_comes_back_from_a_faster_rate();
    a_step_moves_the_number();
    number_and_label_are_inverse();
}

/// Lines are added up: all of them if each says a label; and nothing is written if one says none, whose place is given,
/// or if there are too many.
pub fn lines_are_added_up()
    ensures whole { (base : Timebase) (text : List ℕ) (lines : List (List ℕ)) (labels : List Address)
        → HasLines text lines → length lines ≤ MAX_LINES → SayLabels base lines labels
        → IsInput (along_sum base) text
        × Meaning.output (along_sum base) text (sum_line (count_of base) (sum_of labels)) }
    ensures refused { (base : Timebase) (text : List ℕ) (lines : List (List ℕ)) (labels : List Address)
        (fault : LineFault) → HasLines text lines → IsFirstRefused base lines labels fault
        → fault.line ≤ MAX_LINES
        → StopsAlong (along_sum base) (Refused (Labels fault)) (Some []) text [] }
    ensures limit { (base : Timebase) (text : List ℕ) (lines before behind : List (List ℕ)) (line : List ℕ)
        (labels : List Address) → HasLines text lines → lines ≡ before ++ line ∷ behind
        → SayLabels base before labels → length before ≡ MAX_LINES
        → StopsAlong (along_sum base) Limit (Some []) text [] }
{
    a_text_is_read_as_its_label();
    number_and_label_are_inverse();
}

/// No lines are no frames, one line more adds its number, and two texts one behind another are both of their sums.
pub fn a_sum_is_of_each_line()
    ensures none { (base : Timebase) → Meaning.output (along_sum base) [] (sum_line (count_of base) 0) }
    ensures more { (labels : List Address) (label : Address)
        → sum_of (labels ++ label ∷ []) ≡ sum_of labels + number_of label }
    ensures both { (labels others : List Address) → sum_of (labels ++ others) ≡ sum_of labels + sum_of others }
{}

/// The label of a sum says the sum again: whole days, and behind them the number of a label of the count, whose hours
/// are added to those of the days. Within a day it is the label of that number.
pub fn a_sum_is_said_again()
    ensures { (count : Count) (frames : ℕ) → (days : ℕ) × ((label : Address) × IsLabel label × (label.count ≡ count)
        × (frames ≡ days * day_length count + number_of label)
        × (whole_label count frames ≡ decimal (24 * days + label.hours) ++ drop 2 (text_of label))) }
{
    a_step_moves_the_number();
    number_and_label_are_inverse();
}
