//! The numbers that cross to a caller, written out: those of settings, of faults, and of one event of each kind,
//! whose fields all differ. `include/tc.h` names the same.
ghost use Rattle.std.specs.Prelude.{◌≡◌, ℕ, List, [], ◌∷◌, map, true, false, Ok, Err};
ghost use Rattle.biphase.specs.declared.profile.Profile.TheVariants.{Normal, Worn, Rough};
ghost use Rattle.direction_reader.specs.declared.event.Event.TheVariants.{Word, Refused, Lost};
ghost use Rattle.direction_reader.specs.declared.firm_event.FirmEvent.TheVariants.{Told, Alone};
ghost use Rattle.flywheel.specs.declared.frame.Frame.TheVariants.{Heard, Invented, Gone};
ghost use Rattle.ltc_word.specs.declared.word.WordFault.TheVariants.{Sync};
ghost use Rattle.ltc_word.specs.Spelling.{word_with};
ghost use Rattle.mtc_reader.specs.declared.event.MtcEvent.TheVariants as midi;
ghost use Rattle.pcm_front.specs.declared.pace.Pace.TheVariants.{Ended, Passing};
ghost use Rattle.pcm_front.specs.declared.start.Start.TheVariants.{Crossing, Tick};
ghost use Rattle.pcm_front.specs.declared.threshold.Threshold.TheVariants.{Fixed, Follow, Deep};
ghost use Rattle.direction_reader.specs.declared.witness.Witness.TheVariants.{NotAsked, Asked, Consecutive, Counted};
ghost use Rattle.tc_address.specs.declared.count.Count.TheVariants.{C24, C25, C30, Drop30};
ghost use Rattle.tc_address.specs.declared.direction.Direction.TheVariants.{Forward, Backward};
ghost use Rattle.tc_address.specs.declared.label.LabelFault.TheVariants as label_faults;
ghost use Rattle.tc_address.specs.declared.system.System.TheVariants.{F24, F25, F30};
ghost use Rattle.tc_address.specs.Label.{address};
ghost use Rattle.tc_bits.specs.declared.fault.FieldFault.TheVariants as faults;
ghost use Rattle.tc_bits.specs.Fields.{flags};
ghost use Rattle.vitc_line.specs.declared.word.LineFault.TheVariants.{SyncPair, Check, Field};
ghost use Rattle.vitc_reader.specs.declared.fault.ReadFault.TheVariants.{Runs, Line};
ghost use Rattle.vitc_reader.specs.declared.fault.RunFault.TheVariants.{Run, TooLong};
ghost use Rattle.tc_c.specs.CEvent.{bit, c_event, c_told, count_number, direction_number, fault_number, flag_bits};
ghost use Rattle.tc_c.specs.CFrame.{c_frame};
ghost use Rattle.tc_c.specs.CLine.{line_fault_number, line_fault_place};
ghost use Rattle.tc_c.specs.CMtc.{c_mtc_event, label_fault_number};
ghost use Rattle.tc_c.specs.CSettings.{follows_number, pace_number, start_number, system_number, tolerance_number};
ghost use Rattle.tc_c.specs.CSettings.{witness_number};
ghost use Rattle.tc_c.specs.CWord.{word_fault_number};

/// The numbers of settings.
pub fn settings_have_these_numbers()
    ensures systems { map system_number (F24 ∷ F25 ∷ F30 ∷ []) ≡ 24 ∷ 25 ∷ 30 ∷ [] }
    ensures tolerances { map tolerance_number (Normal ∷ Worn ∷ Rough ∷ []) ≡ 0 ∷ 1 ∷ 2 ∷ [] }
    ensures follows { (n : ℕ) → map follows_number (Fixed n ∷ Follow n ∷ Deep n ∷ []) ≡ 0 ∷ 1 ∷ 2 ∷ [] }
    ensures pace { (n : ℕ) → map pace_number (Ended ∷ Passing n ∷ []) ≡ 0 ∷ n ∷ [] }
    ensures starts { map start_number (Tick ∷ Crossing ∷ []) ≡ 0 ∷ 1 ∷ [] }
    ensures firm { map witness_number (NotAsked ∷ Asked ∷ Consecutive ∷ Counted ∷ []) ≡ 0 ∷ 1 ∷ 2 ∷ 3 ∷ [] }
{}

/// The numbers of directions, counts, flags and faults.
pub fn fields_have_these_numbers()
    ensures directions { map direction_number (Forward ∷ Backward ∷ []) ≡ 0 ∷ 1 ∷ [] }
    ensures counts { map count_number (C24 ∷ C25 ∷ C30 ∷ Drop30 ∷ []) ≡ 0 ∷ 1 ∷ 2 ∷ 3 ∷ [] }
    ensures joined { map bit (false ∷ true ∷ []) ≡ 0 ∷ 1 ∷ [] }
    ensures flags { flag_bits (flags true false false false false) false
        ∷ flag_bits (flags false true false false false) false
        ∷ flag_bits (flags false false true false false) false
        ∷ flag_bits (flags false false false true false) false
        ∷ flag_bits (flags false false false false true) false
        ∷ flag_bits (flags false false false false false) true
        ∷ flag_bits (flags false false false false false) false ∷ []
        ≡ 1 ∷ 2 ∷ 4 ∷ 8 ∷ 16 ∷ 32 ∷ 0 ∷ [] }
    ensures words { map fault_number (faults.FrameUnits ∷ faults.Frames ∷ faults.SecondUnits ∷ faults.SecondTens
        ∷ faults.MinuteUnits ∷ faults.MinuteTens ∷ faults.HourUnits ∷ faults.Hours ∷ faults.DroppedLabel ∷ [])
        ≡ 1 ∷ 2 ∷ 3 ∷ 4 ∷ 5 ∷ 6 ∷ 7 ∷ 8 ∷ 9 ∷ [] }
    ensures sync { (n : ℕ) → word_fault_number (Sync n) ≡ 10 }
    ensures lines { map line_fault_number (Runs (Run 71) ∷ Runs (TooLong 72) ∷ Line (SyncPair 73) ∷ Line (Check 74)
        ∷ Line (Field faults.Hours) ∷ []) ≡ 13 ∷ 14 ∷ 15 ∷ 16 ∷ 8 ∷ [] }
    ensures places { map line_fault_place (Runs (Run 71) ∷ Runs (TooLong 72) ∷ Line (SyncPair 73) ∷ Line (Check 74)
        ∷ Line (Field faults.Hours) ∷ []) ≡ 71 ∷ 72 ∷ 73 ∷ 74 ∷ 0 ∷ [] }
    ensures labels { map label_fault_number (label_faults.Hours ∷ label_faults.Minutes ∷ label_faults.Seconds
        ∷ label_faults.Frames ∷ label_faults.Dropped ∷ []) ≡ 1 ∷ 2 ∷ 3 ∷ 4 ∷ 5 ∷ [] }
{}

/// An event of each kind: a word that is played backward, with flags and user bits, one at fault, a break, and a word
/// without a witness.
pub fn events_have_these_numbers()
    ensures word { c_event (Word Backward (word_with Drop30 19 47 58 23 (flags true false true false true) 8421 true)
        70000 30000) ≡ record {
          kind = 1;
          direction = 1;
          detail = 3;
          flags = 53;
          hours = 19;
          minutes = 47;
          seconds = 58;
          frames = 23;
          user = 8421;
          zero = 0;
          tick = 70000;
          length = 30000;
        } }
    ensures refused { c_event (Refused Backward faults.Hours 70000) ≡ record {
      kind = 2;
      direction = 1;
      detail = 8;
      flags = 0;
      hours = 0;
      minutes = 0;
      seconds = 0;
      frames = 0;
      user = 0;
      zero = 0;
      tick = 70000;
      length = 0;
    } }
    ensures lost { c_event (Lost 97 70000) ≡ record {
      kind = 3;
      direction = 0;
      detail = 0;
      flags = 0;
      hours = 0;
      minutes = 0;
      seconds = 0;
      frames = 0;
      user = 0;
      zero = 0;
      tick = 70000;
      length = 97;
    } }
    ensures told { c_told (Told (Lost 97 70000)) ≡ c_event (Lost 97 70000) }
    ensures alone { c_told (Alone Backward (word_with Drop30 19 47 58 23 (flags true false true false true) 8421 true)
        70000 30000) ≡ record {
          kind = 2;
          direction = 1;
          detail = 12;
          flags = 0;
          hours = 0;
          minutes = 0;
          seconds = 0;
          frames = 0;
          user = 0;
          zero = 0;
          tick = 70000;
          length = 0;
        } }
{}

/// A frame of each kind.
pub fn frames_have_these_numbers()
    ensures heard { c_frame (Heard (address Drop30 19 47 58 23) Backward true 70000) ≡ record {
      kind = 1;
      direction = 1;
      joined = 1;
      step = 0;
      label = record { count = 3; hours = 19; minutes = 47; seconds = 58; frames = 23 };
      zero = 0;
      tick = 70000;
    } }
    ensures invented { c_frame (Invented (address Drop30 19 47 58 23) Backward 5 70000) ≡ record {
      kind = 2;
      direction = 1;
      joined = 0;
      step = 5;
      label = record { count = 3; hours = 19; minutes = 47; seconds = 58; frames = 23 };
      zero = 0;
      tick = 70000;
    } }
    ensures gone { c_frame (Gone 70000) ≡ record {
      kind = 3;
      direction = 0;
      joined = 0;
      step = 0;
      label = record { count = 0; hours = 0; minutes = 0; seconds = 0; frames = 0 };
      zero = 0;
      tick = 70000;
    } }
{}

/// An event of each kind of MIDI Time Code.
pub fn labels_of_midi_have_these_numbers()
    ensures full { c_mtc_event (midi.Full (address Drop30 19 47 58 23) 97) ≡ record {
      kind = 1;
      direction = 0;
      fault = 0;
      label = record { count = 3; hours = 19; minutes = 47; seconds = 58; frames = 23 };
      place = 97;
    } }
    ensures quarter { c_mtc_event (midi.Quarter Backward (address Drop30 19 47 58 23) 97) ≡ record {
      kind = 2;
      direction = 1;
      fault = 0;
      label = record { count = 3; hours = 19; minutes = 47; seconds = 58; frames = 23 };
      place = 97;
    } }
    ensures refused_full { c_mtc_event (midi.RefusedFull label_faults.Seconds 97) ≡ record {
      kind = 1;
      direction = 0;
      fault = 3;
      label = record { count = 0; hours = 0; minutes = 0; seconds = 0; frames = 0 };
      place = 97;
    } }
    ensures refused_quarter { c_mtc_event (midi.RefusedQuarter Backward label_faults.Seconds 97) ≡ record {
      kind = 2;
      direction = 1;
      fault = 3;
      label = record { count = 0; hours = 0; minutes = 0; seconds = 0; frames = 0 };
      place = 97;
    } }
{}
