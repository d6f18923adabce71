//! The limits that code and definitions share, how each command is typed, and a quarter of a frame.
ghost use Rattle.std.specs.Prelude.{◌≡◌, ℕ, ◌-◌, ◌^◌, ◌<◌, ◌≤◌, List, [], ◌∷◌, codes, map, Some, None};
ghost use Rattle.tc_address.specs.declared.system.System.TheVariants.{F24, F25, F30};
ghost use Rattle.tc_job.specs.declared.chase_run.TheConstants.{MAX_SLIP};
ghost use Rattle.tc_job.specs.declared.load_run.TheConstants.{MAX_WORDS};
ghost use Rattle.tc_job.specs.declared.slicing.TheConstants.{MAX_FINENESS, MAX_LEVEL};
ghost use Rattle.tc_job.specs.declared.stripe.TheConstants.{MAX_FRAMES};
ghost use Rattle.tc_job.specs.declared.usages.TheConstants.{USAGES};
ghost use Rattle.tc_job.specs.Pace.{quarter_frame};
ghost use Rattle.tc_job.specs.PathSlicing.{SlicesPath};
ghost use Rattle.tc_job.specs.TrackPath.{least_rate_of, sound_of, SlicesTrackPath};

/// A run makes a million frames at most, and a load run reads a hundred thousand words at most. A sample has 64
/// ticks at most, and a size of 15 bits. A transport slips by a thousand subframes at most.
pub fn the_limits_are_these()
    ensures frames { MAX_FRAMES ≡ 1000000 }
    ensures fineness { MAX_FINENESS ≡ 64 }
    ensures size { MAX_LEVEL ≡ 2 ^ 15 - 1 }
    ensures words { MAX_WORDS ≡ 100000 }
    ensures slip { MAX_SLIP ≡ 1000 }
{}

/// The words of each command in its line of help.
pub fn each_command_is_typed_so()
    ensures { map {B = List ℕ × List ℕ} (λ row. (row.0.now, row.1.now)) USAGES
        ≡ (codes "ltc-read", codes "")
        ∷ (codes "ltc-worn", codes "")
        ∷ (codes "ltc-rough", codes " [firm|consecutive|counted]")
        ∷ (codes "ltc-fly", codes " LIMIT [worn|rough [firm|consecutive|counted]]")
        ∷ (codes "ltc-spans", codes " LIMIT [worn|rough [firm|consecutive|counted]]")
        ∷ (codes "ltc-mtc", codes " LIMIT [worn|rough [firm|consecutive|counted]]")
        ∷ (codes "ltc-jam", codes " LIMIT CELL TICK-RATE [worn|rough [firm|consecutive|counted]]")
        ∷ (codes "ltc-convert", codes " VERSION")
        ∷ (codes "pcm-ltc", codes " SYSTEM RATE THRESHOLD [FINENESS path | [FINENESS [follow|deep [SMOOTH]]] [live]]")
        ∷ (codes "wav-ltc", codes " SYSTEM TRACK THRESHOLD [path | [SMOOTH [deep]] [live]]")
        ∷ (codes "ltc-pcm", codes " LEVEL")
        ∷ (codes "ltc-make", codes " COUNT DIRECTION LABEL FRAMES CELL TICK-RATE [TO-CELL STEP]")
        ∷ (codes "ltc-load", codes " SEED WORDS")
        ∷ (codes "mtc-read", codes "")
        ∷ (codes "chase", codes " COUNT LABEL")
        ∷ (codes "ltc-chase", codes " COUNT LABEL LIMIT SEED BOUND [worn|rough [firm|consecutive|counted]]")
        ∷ (codes "vitc-read", codes "")
        ∷ (codes "luma-vitc", codes " SYSTEM WIDTH HEIGHT FIRST ROWS")
        ∷ (codes "vitc-make", codes " COUNT LABEL FRAMES LENGTH")
        ∷ (codes "number", codes " COUNT LABEL")
        ∷ (codes "label", codes " COUNT NUMBER")
        ∷ (codes "labels", codes " COUNT [ntsc] [column|csv COLUMNS] WAY")
        ∷ (codes "help", codes " [COMMAND|statuses]")
        ∷ (codes "version", codes "")
        ∷ [] }
{}

/// A sound file has steps from its least rate on, up to 6,250,000 samples a second, and below it none.
pub fn a_sound_file_has_steps_from_its_least_rate_on()
    ensures from { (t : SlicesTrackPath) (rate : ℕ) → least_rate_of t.system ≤ rate → rate ≤ 6_250_000
        → (path : SlicesPath) × (sound_of t rate ≡ Some path) }
    ensures below { (t : SlicesTrackPath) (rate : ℕ) → rate < least_rate_of t.system → sound_of t rate ≡ None }
{}

/// A quarter of a frame at 48,000 ticks a second; if it is less than a tick or longer than an interval, it is the
/// least or the greatest interval.
pub fn a_quarter_of_a_frame_is_this()
    ensures at_24 { quarter_frame F24 48000 ≡ 500 }
    ensures at_25 { quarter_frame F25 48000 ≡ 480 }
    ensures at_30 { quarter_frame F30 48000 ≡ 400 }
    ensures least { quarter_frame F25 99 ≡ 1 }
    ensures rounded { quarter_frame F25 48099 ≡ 480 }
{}
