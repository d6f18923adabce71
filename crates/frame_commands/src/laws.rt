//! What follows from the definitions alone.
ghost use Rattle.std.specs.Prelude.{◌≡◌, ◌≤◌, List, ℕ, [], ◌∷◌};
ghost use Rattle.mtc_reader.specs.Laws.{falling, full_message, rising};
ghost use Rattle.quarter_frame.specs.Message.{full_of};
ghost use Rattle.quarter_frame.specs.Runs.{quarters};
ghost use Rattle.tc_address.specs.Label.{Address};
ghost use Rattle.tc_job.specs.ChaseRun.{Chasing, IsChasing};
ghost use Rattle.tc_job.specs.Jam.{IsJamming, Jamming};
ghost use Rattle.tc_job.specs.declared.flight.Flight.{Flight};
ghost use Rattle.tc_job.specs.declared.witness.Witness.{Witness};
ghost use Rattle.interval_engine.specs.KeptCommand.{PrintsInOrder};
ghost use Rattle.frame_commands.specs.declared.ltc_chase.TheConstants.{MAX_FRAMES};
ghost use Rattle.biphase.specs.declared.profile.Profile.{Profile};
ghost use Rattle.direction_reader.specs.declared.event.Event.{Event};
ghost use Rattle.ltc_jam.specs.Labels.{AreEventsOf};
ghost use Rattle.tc_address.specs.declared.system.System.{System};
ghost use Rattle.frame_commands.specs.Heard.{AreHeard};
ghost use Rattle.frame_commands.specs.HeardTape.{HearsTheTape};
ghost use Rattle.frame_commands.specs.KeptFrames.{AddsInOrder};
ghost use Rattle.frame_commands.specs.KeptHeard.{HeardInOrder};
ghost use Rattle.frame_commands.specs.LtcChase.{ChasesTheInput, lines_of_steps};
ghost use Rattle.frame_commands.specs.LtcFly.{lines_of_frames};
ghost use Rattle.frame_commands.specs.LtcJam.{CleansTheInput, file_of_frames};
ghost use Rattle.frame_commands.specs.LtcMtc.{messages_of_frames};
ghost use Rattle.frame_commands.specs.LtcSpans.{lines_of_spans};
ghost use Rattle.frame_commands.specs.OfFrames.{FrameText, along_frames};

use biphase::laws::shaped_cells_are_a_chain;
use code_chase::laws::{a_frame_adds_a_line, each_loss_has_a_cause, whole_code_keeps_the_lock};
use direction_reader::consecutive_laws::{
    a_list_has_one_list_of_consecutive_events, a_list_has_one_list_of_consecutive_told,
    consecutive_told_come_first, each_word_has_its_witness_or_its_next_word,
    the_next_word_changes_words_alone,
};
use direction_reader::counted_laws::{
    a_list_has_one_list_of_counted_events, a_list_has_one_list_of_counted_told,
    counted_told_come_first, counting_changes_words_alone, each_word_that_is_told_counts,
};
use direction_reader::firm_laws::{
    a_list_has_one_list_of_firm_events, a_list_has_one_list_of_told_events,
    a_witness_changes_words_alone, each_word_that_is_told_has_its_witness, told_events_come_first,
};
use direction_reader::laws::{
    a_list_has_one_list_of_events, each_list_has_events, events_find_the_tape_again,
    events_find_the_tape_behind_even_ones, events_of_a_front_come_first, events_tell_the_tape,
};
use flywheel::laws::{
    a_frame_that_goes_on_is_the_next, frames_of_a_front_come_first, invention_is_bounded_and_marked,
};
use ltc_jam::laws::{
    a_clean_recording_is_written_frame_by_frame, cells_of_one_length_are_shaped,
    clean_recordings_are_read, what_is_read_has_labels_of_its_system,
};
use quarter_frame::laws::messages_of_a_front_come_first;
use tape_spans::laws::final_lines_come_first;

/// What is heard of some intervals there is, and it comes first, whatever intervals follow: if words
/// need a witness, if they may be consecutive, if they are counted, and if none of these.
pub fn what_is_heard_is_in_order()
    ensures { (witness : Witness) → HeardInOrder witness }
{
    a_list_has_one_list_of_events();
    each_list_has_events();
    events_of_a_front_come_first();
    a_list_has_one_list_of_firm_events();
    a_list_has_one_list_of_told_events();
    told_events_come_first();
    a_list_has_one_list_of_consecutive_events();
    a_list_has_one_list_of_consecutive_told();
    consecutive_told_come_first();
    a_list_has_one_list_of_counted_events();
    a_list_has_one_list_of_counted_told();
    counted_told_come_first();
}

/// The words that are heard have labels of the recording's system.
pub fn what_is_heard_has_labels_of_its_system()
    ensures { (witness : Witness) (system : System) (profile : Profile) (intervals : List ℕ) (events : List Event)
        → AreHeard witness system profile intervals events → AreEventsOf system events }
{
    what_is_read_has_labels_of_its_system();
    each_list_has_events();
    a_witness_changes_words_alone();
    the_next_word_changes_words_alone();
    counting_changes_words_alone();
}

/// What is heard of a recording tells its tape: it is what is read of it, or that among it which has a witness, is
/// consecutive or counts, and what is read are the words of the tape.
pub fn what_is_heard_tells_the_tape()
    ensures { (witness : Witness) (system : System) (profile : Profile) (intervals : List ℕ) (events : List Event)
        → AreHeard witness system profile intervals events
        → HearsTheTape witness system profile intervals events }
{
    each_list_has_events();
    events_tell_the_tape();
    events_find_the_tape_again();
    events_find_the_tape_behind_even_ones();
    a_witness_changes_words_alone();
    each_word_that_is_told_has_its_witness();
    the_next_word_changes_words_alone();
    each_word_has_its_witness_or_its_next_word();
    counting_changes_words_alone();
    each_word_that_is_told_counts();
}

/// What a command prints of frames there is, and it is in order, if what it makes of frames is.
pub fn what_is_made_of_frames_is_in_order()
    ensures { (flight : Flight) (made : FrameText) → AddsInOrder made → PrintsInOrder (along_frames flight made) }
{
    what_is_heard_is_in_order();
    frames_of_a_front_come_first();
}

/// What each command makes of frames only adds to what it made of the first of them, and behind a limit
/// of its own it adds nothing.
pub fn each_sink_of_frames_adds_in_order()
    ensures lines { AddsInOrder lines_of_frames }
    ensures spans { AddsInOrder lines_of_spans }
    ensures messages { AddsInOrder messages_of_frames }
    ensures cells { (jam : Jamming) → AddsInOrder (file_of_frames jam) }
    ensures steps { (run : Chasing) → AddsInOrder (lines_of_steps run) }
{
    messages_of_a_front_come_first();
    a_clean_recording_is_written_frame_by_frame();
    a_frame_adds_a_line();
    final_lines_come_first();
}

/// What `ltc-jam` writes of a whole input is the file of a clean recording: each frame of the input that was
/// heard or invented is read from it, in order and in its place, and nothing else.
pub fn what_is_jammed_is_read()
    ensures { (j : Jamming) → IsJamming j → CleansTheInput j }
{
    cells_of_one_length_are_shaped();
    clean_recordings_are_read();
    shaped_cells_are_a_chain();
    what_is_read_has_labels_of_its_system();
    what_is_heard_has_labels_of_its_system();
    invention_is_bounded_and_marked();
    what_is_heard_tells_the_tape();
}

/// What `ltc-chase` writes of a whole input is the trace of a chase over its frames, or over the first of
/// them, if there are more than its limit; and each loss in it has its cause: no code if its frame is
/// gone or has another count, and out of the window if it does not join or the transport slipped far.
pub fn what_is_chased_follows_the_code()
    ensures { (c : Chasing) → IsChasing c → ChasesTheInput c }
{
    what_is_read_has_labels_of_its_system();
    what_is_heard_has_labels_of_its_system();
    a_frame_that_goes_on_is_the_next();
    each_loss_has_a_cause();
    whole_code_keeps_the_lock();
    invention_is_bounded_and_marked();
    what_is_heard_tells_the_tape();
}

/// `ltc-chase` follows a hundred million frames, and no more.
pub fn ltc_chase_has_this_limit()
    ensures { MAX_FRAMES ≡ 100000000 }
{}

/// The messages that `ltc-mtc` sends are those that `mtc-read` reads: a full message of a label, and the
/// eight quarter frames of a pair, forward and backward.
pub fn what_is_sent_is_what_is_read()
    ensures full { (a : Address) → full_of a ≡ full_message 0x7f a }
    ensures forward { (a : Address) → quarters a (0 ∷ 1 ∷ 2 ∷ 3 ∷ 4 ∷ 5 ∷ 6 ∷ 7 ∷ []) ≡ rising a }
    ensures backward { (a : Address) → quarters a (7 ∷ 6 ∷ 5 ∷ 4 ∷ 3 ∷ 2 ∷ 1 ∷ 0 ∷ []) ≡ falling a }
{}
