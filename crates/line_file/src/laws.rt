//! The numbers that code and definitions share, as the table of a line file gives them; and what follows
//! from the definitions alone.
ghost use Rattle.std.specs.Prelude.{◌≡◌, ◌≤◌, ℕ, List, [], ◌∷◌, ◌++◌, length, Some, None, true};
ghost use Rattle.file_faults.specs.declared.lines.LineFileFault.{LineFileFault};
ghost use Rattle.tc_io.specs.Bytes.{AreBytes};
ghost use Rattle.tc_io.specs.Verdict.{good, refused, past_limit};
ghost use Rattle.vitc_reader.specs.declared.field.FieldAnswer.{FieldAnswer};
ghost use Rattle.vitc_reader.specs.declared.line_length.TheConstants as line_length;
ghost use Rattle.line_file.specs.declared.decoder.TheConstants as decoder;
ghost use Rattle.line_file.specs.declared.field.TheConstants as field;
ghost use Rattle.line_file.specs.declared.header.TheConstants as header;
ghost use Rattle.line_file.specs.declared.header.LineHeader.{LineHeader};
ghost use Rattle.line_file.specs.Answers.{AreAnswersOf};
ghost use Rattle.line_file.specs.Grammar.{file_of, AreFields, AreRuns};
ghost use Rattle.line_file.specs.LineFile.{end_fault_of, reading_of};
ghost use Rattle.line_file.specs.LineHeader.{IsHeader};
ghost use Rattle.vitc_reader.specs.Runs.{IsLineLength, StandFor};
ghost use Rattle.line_file.specs.StandsFor.{Decoding, StandsFor, IsTold};

use vitc_reader::laws::{lines_have_an_answer, lines_have_one_answer};

/// The magic is `VITL`, the version is 1; a header has 12 bytes, and the line length, from 460 to 65,535,
/// follows its first 8. A field has 20 lines at most, a line 89 runs, and a file 100,000,000 fields.
pub fn a_line_file_has_these_numbers()
    ensures magic { header.MAGIC ≡ 0x56 ∷ 0x49 ∷ 0x54 ∷ 0x4c ∷ [] }
    ensures version { header.VERSION ≡ 1 }
    ensures first { header.HEAD_LENGTH ≡ 8 }
    ensures length { header.HEADER_LENGTH ≡ 12 }
    ensures least { line_length.MIN_LINE_LENGTH ≡ 460 }
    ensures most { line_length.MAX_LINE_LENGTH ≡ 65535 }
    ensures lines { field.MAX_LINES ≡ 20 }
    ensures runs { field.MAX_RUNS ≡ 89 }
    ensures room { decoder.FIELD_ROOM ≡ 3581 }
    ensures fields { decoder.MAX_FIELDS ≡ 100000000 }
{}

/// A fault of bytes is their fault whatever bytes follow, and so is the limit.
pub fn what_bytes_show_stays()
    ensures fault { (bytes more : List ℕ) (fault : LineFileFault) → (reading_of bytes).verdict ≡ refused fault
        → (reading_of (bytes ++ more)).verdict ≡ refused fault }
    ensures limit { (bytes more : List ℕ) → (reading_of bytes).verdict ≡ past_limit
        → (reading_of (bytes ++ more)).verdict ≡ past_limit }
{}

/// Bytes that a decoder took are good, and the answers that it gave are those of their fields.
pub fn a_decoder_tells_the_file()
    ensures { (d : Decoding) (bytes : List ℕ) (answers : List FieldAnswer) → StandsFor d bytes answers
        → IsTold (reading_of bytes) good answers }
{}

/// All bytes have a list of answers: those of the whole fields among them.
pub fn bytes_have_answers()
    ensures { (bytes : List ℕ) → (answers : List FieldAnswer) × AreAnswersOf (reading_of bytes) answers }
{
    lines_have_an_answer();
}

/// Bytes have one list of answers.
pub fn bytes_have_one_list_of_answers()
    ensures { (bytes : List ℕ) (a b : List FieldAnswer) → AreAnswersOf (reading_of bytes) a
        → AreAnswersOf (reading_of bytes) b → a ≡ b }
{
    lines_have_one_answer();
}

/// The answers of the fields of some bytes come first, whatever bytes follow.
pub fn answers_of_a_front_come_first()
    ensures { (bytes more : List ℕ) (answers all : List FieldAnswer) → AreAnswersOf (reading_of bytes) answers
        → AreAnswersOf (reading_of (bytes ++ more)) all → (rest : List FieldAnswer) × (all ≡ answers ++ rest) }
{
    lines_have_one_answer();
}

/// The file of a header and fields is read as that header and these fields, and the input may end there.
pub fn a_file_is_read_as_it_was_written()
    ensures { (header : LineHeader) (fields : List (List (List ℕ))) → IsHeader header → AreFields fields
        → length fields ≤ decoder.MAX_FIELDS
        → reading_of (file_of header fields)
        ≡ record { header = Some header; fields = fields; verdict = good; is_whole = true } }
{}

/// Each input that is taken whole is the file of a header and fields within the limit.
pub fn what_is_read_whole_is_a_file()
    ensures { (bytes : List ℕ) → AreBytes bytes → (reading_of bytes).verdict ≡ good → end_fault_of bytes ≡ None
        → (header : LineHeader) × (fields : List (List (List ℕ))) × IsHeader header × AreFields fields
        × (length fields ≤ decoder.MAX_FIELDS) × (bytes ≡ file_of header fields) }
{}

/// Runs that stand for the bits of a line last a tick or more, and each of them fits its two bytes.
pub fn runs_of_a_line_fit_the_file()
    ensures { (n bits : ℕ) (runs : List ℕ) → IsLineLength n → StandFor n runs bits → AreRuns runs }
{}
