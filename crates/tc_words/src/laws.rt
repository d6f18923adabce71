//! What words are answered, and the table of usages beside the commands.
ghost use Rattle.std.specs.Prelude.{◌≡◌, true};
ghost use Rattle.tc_words.specs.AnsweredWords.{AreAnswered, answered_words};
ghost use Rattle.tc_words.specs.Forms.{AreTaken, are_once, rows};
ghost use Rattle.tc_words.specs.Pages.{AreNamed, are_examples_taken, are_shown, are_values_read};
ghost use Rattle.tc_words.specs.Usages.{HaveUsages, are_commands};

use tc_address::laws::number_and_label_are_inverse;

/// Words are answered so, worked out by hand: their task, or the first fault and its place.
pub fn words_are_answered_so()
    ensures { AreAnswered answered_words }
{}

/// The table of usages has a row for each command, and no other.
pub fn each_command_has_its_usage()
    ensures each { HaveUsages }
    ensures only { are_commands ≡ true }
{}

/// No command has two rows, and each way to make words by the form of a row is taken by its command: with a
/// value for each word in capitals, with and without what is in brackets, and with each of the words
/// and of the ways between bars.
pub fn each_form_is_taken()
    ensures once { are_once rows ≡ true }
    ensures taken { AreTaken rows }
{
    number_and_label_are_inverse();
}

/// The page of each command names what is read. Its examples are words that the command takes. What help prints of a
/// slot stands in a line of the page. Each value that is spelled there is read in an example at its place, and so is
/// each end of a range. And of all words that the command takes each is named by what is printed of its slot.
pub fn each_page_tells_what_is_read()
    ensures examples { are_examples_taken ≡ true }
    ensures shown { are_shown ≡ true }
    ensures read { are_values_read ≡ true }
    ensures named { AreNamed rows }
{
    number_and_label_are_inverse();
}
