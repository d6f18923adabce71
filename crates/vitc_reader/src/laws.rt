//! What follows from the definitions alone.
ghost use Rattle.std.specs.Prelude.{◌≡◌, ◌<◌, ◌^◌, ◌%◌, ◌++◌, ◌∷◌, [], ℕ, List};
ghost use Rattle.tc_address.specs.declared.system.System.{System};
ghost use Rattle.vitc_reader.specs.declared.fault.RunFault.{RunFault};
ghost use Rattle.vitc_reader.specs.declared.field.FieldAnswer.{FieldAnswer};
ghost use Rattle.vitc_reader.specs.Agreement.{SaysOf};
ghost use Rattle.vitc_reader.specs.Field.{IsAnswer, FieldState, StandsFor};
ghost use Rattle.vitc_reader.specs.Runs.{IsLineLength, IsRunFault, MayBeLine, StandFor};
ghost use Rattle.vitc_reader.specs.Written.{runs_in};

use vitc_line::laws::{
    bits_spell_a_word_or_have_a_fault, each_word_has_its_line, spelling_is_exact,
};

/// Runs stand for one number of bits at most, and have one first fault at most; runs that stand for
/// bits have none.
pub fn runs_say_one_thing()
    ensures one_number { (n : ℕ) (runs : List ℕ) (a b : ℕ) → IsLineLength n → StandFor n runs a → StandFor n runs b
        → a ≡ b }
    ensures one_fault { (n : ℕ) (runs : List ℕ) (a b : RunFault) → IsLineLength n → IsRunFault n runs a
        → IsRunFault n runs b → a ≡ b }
    ensures no_fault { (n : ℕ) (runs : List ℕ) (bits : ℕ) (fault : RunFault) → IsLineLength n → StandFor n runs bits
        → ¬ IsRunFault n runs fault }
{}

/// Bits of which bit 0 is 1 have their runs on a line of each length, and these stand for them.
pub fn each_line_has_its_runs()
    ensures line { (n bits : ℕ) → IsLineLength n → bits < 2 ^ 90 → bits % 2 ≡ 1 → MayBeLine (runs_in n bits) }
    ensures stand { (n bits : ℕ) → IsLineLength n → bits < 2 ^ 90 → bits % 2 ≡ 1 → StandFor n (runs_in n bits) bits }
{}

/// The lines of a field have an answer.
pub fn lines_have_an_answer()
    ensures { (system : System) (n : ℕ) (lines : List (List ℕ)) → IsLineLength n
        → (answer : FieldAnswer) × IsAnswer system n lines answer }
{
    bits_spell_a_word_or_have_a_fault();
}

/// The lines of a field have one answer.
pub fn lines_have_one_answer()
    ensures { (system : System) (n : ℕ) (lines : List (List ℕ)) (a b : FieldAnswer) → IsLineLength n
        → IsAnswer system n lines a
        → IsAnswer system n lines b → a ≡ b }
{
    spelling_is_exact();
}

/// The answer of a field says whose lines its lines are: agreed on a word exactly if some line's runs are those of
/// the word's line, each to a quarter of a cell, and every other line is so or has a fault; in conflict exactly if the
/// first two lines that differ are these words' lines; nothing if every line has a fault, the first line this one.
pub fn an_answer_says_whose_lines_they_are()
    ensures says { (system : System) (n : ℕ) (lines : List (List ℕ)) (answer : FieldAnswer)
        → IsAnswer system n lines answer
        → SaysOf system n lines answer }
    ensures only { (system : System) (n : ℕ) (lines : List (List ℕ)) (answer : FieldAnswer) → IsLineLength n
        → SaysOf system n lines answer → IsAnswer system n lines answer }
{
    each_word_has_its_line();
    spelling_is_exact();
    bits_spell_a_word_or_have_a_fault();
}

/// A line that comes again right after itself changes no answer.
pub fn a_line_again_changes_nothing()
    ensures { (reader : FieldState) (lines : List (List ℕ)) (line : List ℕ) → StandsFor reader (lines ++ line ∷ [])
        → StandsFor reader ((lines ++ line ∷ []) ++ line ∷ []) }
{}
