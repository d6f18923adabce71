//! The names of the faults, letter by letter.
ghost use Rattle.std.specs.Prelude.{◌≡◌, codes};
ghost use Rattle.file_faults.specs.declared.line_names.TheConstants as lines;
ghost use Rattle.file_faults.specs.declared.sound_names.TheConstants as sound;

/// The faults of a line file have these names in notes.
pub fn each_fault_of_a_line_file_has_its_name()
    ensures magic { lines.MAGIC_NAME.now ≡ codes "magic" }
    ensures version { lines.VERSION_NAME.now ≡ codes "version" }
    ensures system { lines.SYSTEM_NAME.now ≡ codes "system" }
    ensures reserved { lines.RESERVED_NAME.now ≡ codes "reserved" }
    ensures line_length { lines.LINE_LENGTH_NAME.now ≡ codes "line-length" }
    ensures line_count { lines.LINE_COUNT_NAME.now ≡ codes "line-count" }
    ensures run_count { lines.RUN_COUNT_NAME.now ≡ codes "run-count" }
    ensures run { lines.RUN_NAME.now ≡ codes "run" }
    ensures truncated { lines.TRUNCATED_NAME.now ≡ codes "truncated" }
{}

/// The faults of a sound file have these names in notes.
pub fn each_fault_of_a_sound_file_has_its_name()
    ensures riff { sound.RIFF_NAME.now ≡ codes "riff" }
    ensures wave { sound.WAVE_NAME.now ≡ codes "wave" }
    ensures ds64 { sound.DS64_NAME.now ≡ codes "ds64" }
    ensures format { sound.FORMAT_NAME.now ≡ codes "format" }
    ensures track { sound.TRACK_NAME.now ≡ codes "track" }
    ensures truncated { sound.TRUNCATED_NAME.now ≡ codes "truncated" }
{}
