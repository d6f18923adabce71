//! What follows from the definitions alone.
ghost use Rattle.std.specs.Prelude.{◌≡◌, ◌<◌, ◌++◌, ℕ, List, [], ◌∷◌, length, map, false};
ghost use Rattle.tc_address.specs.declared.direction.Direction.TheVariants.{Forward, Backward};
ghost use Rattle.tc_address.specs.declared.label.LabelFault.{LabelFault};
ghost use Rattle.tc_address.specs.Label.{Address, IsFirstFault, IsLabel, is_label};
ghost use Rattle.mtc_reader.specs.declared.eight.TheConstants.{NO_QUARTER};
ghost use Rattle.mtc_reader.specs.declared.event.MtcEvent.{MtcEvent};
ghost use Rattle.mtc_reader.specs.declared.event.MtcEvent.TheVariants.{Full, Quarter};
ghost use Rattle.mtc_reader.specs.Events.{events_in, fault_of};
ghost use Rattle.mtc_reader.specs.Laws.{
  all_falling,
  all_rising,
  at_no_place,
  falling,
  falling_half,
  full_message,
  rising,
  rising_half,
  run_events,
  AreLabels,
  AreRealTime,
};
ghost use Rattle.mtc_reader.specs.Messages.{without_real_time};
ghost use Rattle.mtc_reader.specs.Spelled.{carried_by, placed, AreMessages, AreSounding, SpelledMessage};

/// What stands for a quarter frame that did not come: a byte that no quarter frame has behind its status.
pub fn no_quarter_frame_is_this()
    ensures { NO_QUARTER ≡ 255 }
{}

/// System real-time bytes, wherever they are put in, change the places of events and nothing else of
/// them. So two lists of bytes that differ in such bytes alone have the same events but for the places.
pub fn real_time_bytes_change_places_only()
    ensures inserted { (before inserted after : List ℕ) → AreRealTime inserted
        → map at_no_place (events_in (before ++ (inserted ++ after))) ≡ map at_no_place (events_in (before ++ after)) }
    ensures same { (a b : List ℕ) → without_real_time a ≡ without_real_time b
        → map at_no_place (events_in a) ≡ map at_no_place (events_in b) }
{}

/// Bytes are spelled messages, and bytes between them that hold none, in one way alone.
pub fn bytes_are_one_list_of_messages()
    ensures some { (bytes : List ℕ) → (messages : List SpelledMessage) × AreMessages messages bytes }
    ensures one { (messages others : List SpelledMessage) (bytes : List ℕ) → AreMessages messages bytes
        → AreMessages others bytes → messages ≡ others }
{}

/// The events of bytes are what their messages carry: each full message its address, and each eight
/// neighbouring messages theirs, if they are quarter frames whose pieces rise or fall. If system
/// real-time bytes are among them, so it is of the others, but for the places.
pub fn messages_carry_the_events()
    ensures places { (messages : List SpelledMessage) (bytes : List ℕ) → AreSounding bytes → AreMessages messages bytes
        → events_in bytes ≡ carried_by (placed 0 messages) }
    ensures among { (messages : List SpelledMessage) (bytes : List ℕ) → AreMessages messages (without_real_time bytes)
        → map at_no_place (events_in bytes) ≡ map at_no_place (carried_by (placed 0 messages)) }
    ensures whole { (bytes : List ℕ) → AreSounding bytes → without_real_time bytes ≡ bytes }
{}

/// The events of bytes stay what they are, whatever bytes come after them.
pub fn earlier_events_stay()
    ensures { (before more : List ℕ)
        → (later : List MtcEvent) × (events_in (before ++ more) ≡ events_in before ++ later) }
{}

/// A full message of a label, to any device, is read as that label, and so are its eight quarter frames
/// with rising and with falling pieces. The place is that of the last byte.
pub fn a_label_is_read_back()
    ensures full { (device : ℕ) (label : Address) → device < 0x80 → IsLabel label
        → events_in (full_message device label) ≡ Full label 9 ∷ [] }
    ensures forward { (label : Address) → IsLabel label → events_in (rising label) ≡ Quarter Forward label 15 ∷ [] }
    ensures backward { (label : Address) → IsLabel label → events_in (falling label) ≡ Quarter Backward label 15 ∷ [] }
{}

/// After whatever bytes, a full message and then pairs of frames, eight quarter frames each, are read as
/// the label of the full message and one label a pair, each with the place of its last byte; half a pair
/// behind them gives nothing.
pub fn a_run_is_read_back()
    ensures forward { (before : List ℕ) (device : ℕ) (first : Address) (labels : List Address) → device < 0x80
        → IsLabel first → AreLabels labels
        → events_in (before ++ (full_message device first ++ all_rising labels))
        ≡ events_in before ++ run_events (length before) Forward first labels }
    ensures forward_half { (before : List ℕ) (device : ℕ) (first : Address) (labels : List Address) (half : Address)
        → device < 0x80 → IsLabel first → AreLabels labels → IsLabel half
        → events_in (before ++ (full_message device first ++ (all_rising labels ++ rising_half half)))
        ≡ events_in before ++ run_events (length before) Forward first labels }
    ensures backward { (before : List ℕ) (device : ℕ) (first : Address) (labels : List Address) → device < 0x80
        → IsLabel first → AreLabels labels
        → events_in (before ++ (full_message device first ++ all_falling labels))
        ≡ events_in before ++ run_events (length before) Backward first labels }
    ensures backward_half { (before : List ℕ) (device : ℕ) (first : Address) (labels : List Address) (half : Address)
        → device < 0x80 → IsLabel first → AreLabels labels → IsLabel half
        → events_in (before ++ (full_message device first ++ (all_falling labels ++ falling_half half)))
        ≡ events_in before ++ run_events (length before) Backward first labels }
{}

/// An address with a first fault is no label, and that fault is given.
pub fn the_first_fault_is_told()
    ensures { (fault : LabelFault) (a : Address) → IsFirstFault fault a → (is_label a ≡ false) × (fault_of a ≡ fault) }
{}
