//! What follows from the definitions alone.
ghost use Rattle.std.specs.Prelude.{◌≡◌, ◌≤◌, ◌-◌, ℕ, List, [], ◌∷◌, codes, drop, false, length, map, None, Some, true};
ghost use Rattle.biphase.specs.Chain.{flat};
ghost use Rattle.biphase.specs.declared.cell.Cell.TheVariants.{One, Zero};
ghost use Rattle.interval_file.specs.Recording.{end_fault_of, recording_of};
ghost use Rattle.tc_io.specs.Verdict.{good};
ghost use Rattle.tc_job.specs.LineStripe.{IsLineStripe, LineStriping};
ghost use Rattle.tc_job.specs.Stripe.{IsStripe, Striping};
ghost use Rattle.tc_address.specs.declared.count.Count.TheVariants.{C25};
ghost use Rattle.tc_address.specs.Label.{address};
ghost use Rattle.made_commands.specs.declared.about.TheConstants.{MANUAL, VERSION};
ghost use Rattle.made_commands.specs.declared.chance.TheConstants as chance;
ghost use Rattle.made_commands.specs.About.{help_text, usage_line, version_line};
ghost use Rattle.made_commands.specs.Labels.{label_line};
ghost use Rattle.made_commands.specs.Load.{begins_with, cells_by, load_word, next_length};
ghost use Rattle.made_commands.specs.Made.{made, made_cells, made_header, IsReadBack};
ghost use Rattle.made_commands.specs.Pages.{exit_numbers, line_of, row_of};
ghost use Rattle.made_commands.specs.Statuses.{TellTheNotes, told_note};
ghost use Rattle.tc_command.specs.declared.status.Status.TheVariants as statuses;
ghost use Rattle.made_commands.specs.MadeLines.{made_lines, AreReadBack};

use biphase::laws::shaped_cells_are_a_chain;
use direction_reader::laws::played_words_are_read;
use interval_file::laws::a_file_is_read_as_it_was_written;
use line_file::laws::{
    a_file_is_read_as_it_was_written as line_files_are_read_as_they_were_written,
    runs_of_a_line_fit_the_file,
};
use ltc_jam::laws::{steps_lead_to_labels, words_of_labels_are_spelled};
use vitc_line::laws::each_word_has_its_line;
use vitc_reader::laws::each_line_has_its_runs;

/// The lengths that `ltc-load` makes of what it draws have these limits.
pub fn the_lengths_of_a_load_run_are_these()
    ensures first { chance.FIRST_LENGTH ≡ 512 }
    ensures least { chance.LEAST_LENGTH ≡ 64 }
    ensures greatest { chance.GREATEST_LENGTH ≡ 4096 }
{}

/// The first cells of a load, worked out by hand from a seed of 53: a zero, a one, and those of three bits more. A cell
/// is shortened to 64 ticks at most, and lengthened to 4,096. The upper half of a draw is the user bits of a word.
pub fn the_first_cells_of_a_load_are_these()
    ensures cells { cells_by (begins_with 53) (false ∷ true ∷ false ∷ true ∷ true ∷ [])
        ≡ Zero 576 ∷ One 302 269 ∷ Zero 632 ∷ One 345 347 ∷ One 378 360 ∷ [] }
    ensures shortest { next_length 0 64 ≡ 64 }
    ensures longest { next_length 1_125_899_906_842_624 4_096 ≡ 4_096 }
    ensures user { (load_word (address C25 0 0 0 0) 6_700_521_577_997_063_584).fields.user ≡ 1_560_086_751 }
{}

/// The line of `version`, a line of `help` with its values and its last line, and a line of `label`, letter by
/// letter.
pub fn what_the_program_tells_is_this()
    ensures number_of_version { VERSION.now ≡ codes "1.2.0" }
    ensures version { version_line ≡ codes "tc 1.2.0\n" }
    ensures usage { usage_line (codes "ltc-fly", codes " LIMIT") ≡ codes "ltc-fly LIMIT\n" }
    ensures manual { MANUAL.now ≡ codes "The manual: man 1 tc, and of files and lines man 5 tc-formats." }
    ensures label { label_line (address C25 1 2 3 4) ≡ codes "01:02:03:04\n" }
    ensures help { drop (length help_text - 2) help_text ≡ codes ".\n" }
    ensures page { line_of (codes "x") (row_of (codes "x") (codes "a ") (codes "b") (codes " c")) ≡ codes "a b c\n" }
{}

/// What `ltc-make` makes is within the limit of a reading, and is read as its header and its intervals,
/// frame by frame.
pub fn what_is_made_is_read_whole()
    ensures few { (s : Striping) → IsStripe s → length (flat (made_cells s)) ≤ 160000003 }
    ensures read { (s : Striping) → IsStripe s
        → (recording_of (made s) ≡ record {
          header = Some (made_header s);
          intervals = flat (made_cells s);
          verdict = good;
        })
        × (end_fault_of (made s) ≡ None) }
    ensures back { (s : Striping) → IsStripe s → IsReadBack s (made s) }
{
    words_of_labels_are_spelled();
    steps_lead_to_labels();
    played_words_are_read();
    shaped_cells_are_a_chain();
    a_file_is_read_as_it_was_written();
}

/// What `vitc-make` makes is read back, field by field.
pub fn lines_that_are_made_are_read_back()
    ensures { (s : LineStriping) → IsLineStripe s → AreReadBack s (made_lines s) }
{
    steps_lead_to_labels();
    each_word_has_its_line();
    each_line_has_its_runs();
    runs_of_a_line_fit_the_file();
    line_files_are_read_as_they_were_written();
}

/// `help statuses` has each exit number once, in their order, and how its notes begin: 8 is that of no
/// status, and like 0 has no note.
pub fn help_tells_of_each_status()
    ensures numbers { map {B = List ℕ} (λ row. row.before) exit_numbers ≡ codes "0  " ∷ codes "2  " ∷ codes "3  "
        ∷ codes "4  " ∷ codes "5  " ∷ codes "6  " ∷ codes "7  " ∷ codes "8  " ∷ [] }
    ensures notes { TellTheNotes }
    ensures usage { told_note statuses.Usage ≡ codes "tc: usage: " }
    ensures refused { told_note statuses.Refused ≡ codes "tc: refused: " }
    ensures read { told_note statuses.ReadFault ≡ codes "tc: read fault" }
    ensures write { told_note statuses.WriteFault ≡ codes "tc: write fault" }
    ensures memory { told_note statuses.Memory ≡ codes "tc: out of memory" }
    ensures limit { told_note statuses.Limit ≡ codes "tc: limit" }
{}
