//! The numbers, names and bytes that code and definitions share, as the tables of an interval file
//! give them; and what follows of whole files.
ghost use Rattle.std.specs.Prelude.{◌≡◌, ◌≤◌, ℕ, List, [], ◌∷◌, length, Some, None, codes};
ghost use Rattle.limits.specs.declared.recording.TheConstants.{MAX_INTERVALS};
ghost use Rattle.interval_file.specs.declared.header.IntervalHeader.{IntervalHeader};
ghost use Rattle.interval_file.specs.Contents.{contents_of};
ghost use Rattle.interval_file.specs.Growing.{RecordingsGrow};
ghost use Rattle.tc_io.specs.Bytes.{AreBytes};
ghost use Rattle.interval_file.specs.Grammar.{Contents, IsFile, Says, fault_of};
ghost use Rattle.interval_file.specs.Recording.{end_fault_of, read_of, recording_of};
ghost use Rattle.tc_io.specs.Verdict.{good};
ghost use Rattle.interval_file.specs.declared.header.TheConstants as header;
ghost use Rattle.interval_file.specs.declared.piece.TheConstants as piece;
ghost use Rattle.interval_file.specs.declared.names.TheConstants as names;

/// The magic is `LTCI`, the versions are 1 and 2; a header has 12 bytes, and the tick rate follows its
/// first 8. In version 2 two bytes hold what is below 65,536.
pub fn a_header_is_this()
    ensures magic { header.MAGIC ≡ 0x4c ∷ 0x54 ∷ 0x43 ∷ 0x49 ∷ [] }
    ensures one { header.VERSION_ONE ≡ 1 }
    ensures two { header.VERSION_TWO ≡ 2 }
    ensures first { header.HEAD_LENGTH ≡ 8 }
    ensures length { header.HEADER_LENGTH ≡ 12 }
    ensures least_long { piece.LEAST_LONG ≡ 65536 }
{}

/// The faults of an interval file have these names in notes.
pub fn each_fault_has_its_name()
    ensures magic { names.MAGIC_NAME.now ≡ codes "magic" }
    ensures version { names.VERSION_NAME.now ≡ codes "version" }
    ensures system { names.SYSTEM_NAME.now ≡ codes "system" }
    ensures reserved { names.RESERVED_NAME.now ≡ codes "reserved" }
    ensures tick_rate { names.TICK_RATE_NAME.now ≡ codes "tick-rate" }
    ensures interval { names.INTERVAL_NAME.now ≡ codes "interval" }
    ensures truncated { names.TRUNCATED_NAME.now ≡ codes "truncated" }
{}

/// Every list of bytes says one thing, and one alone, which is what is read from its front: it is a
/// file, of one header and one list of intervals; or it has one first fault, before the header is
/// whole, or behind a header and intervals.
pub fn each_list_of_bytes_says_one_thing()
    ensures some { (bytes : List ℕ) → AreBytes bytes → Says (contents_of bytes) bytes }
    ensures one { (bytes : List ℕ) (a b : Contents) → Says a bytes → Says b bytes → a ≡ b }
{}

/// What is read of bytes is what the text says: its header, its intervals within the limit and its
/// first fault. The fault at the end is the first fault of the whole text. So an input that a command
/// takes whole is a file within the limit.
pub fn bytes_are_read_as_the_text_says()
    ensures recording { (bytes : List ℕ) (contents : Contents) → Says contents bytes
        → recording_of bytes ≡ read_of contents }
    ensures fault { (bytes : List ℕ) (contents : Contents) → Says contents bytes
        → end_fault_of bytes ≡ fault_of contents }
    ensures input { (bytes : List ℕ) → AreBytes bytes → (recording_of bytes).verdict ≡ good → end_fault_of bytes ≡ None
        → (header : IntervalHeader) × (intervals : List ℕ) × IsFile bytes header intervals
        × (length intervals ≤ MAX_INTERVALS) }
{}

/// What bytes say of a recording grows with more bytes, and stays as it is behind a fault and behind the
/// limit. Of an input it has a header.
pub fn recordings_grow()
    ensures { RecordingsGrow }
{}

/// The file of a recording is read as its header and its intervals, and the input may end there. So
/// two files of one version with the same system, tick rate and intervals are the same bytes.
pub fn a_file_is_read_as_it_was_written()
    ensures read { (bytes : List ℕ) (header : IntervalHeader) (intervals : List ℕ) → IsFile bytes header intervals
        → length intervals ≤ MAX_INTERVALS
        → (recording_of bytes ≡ record { header = Some header; intervals = intervals; verdict = good })
        × (end_fault_of bytes ≡ None) }
    ensures one_text { (a b : List ℕ) (header : IntervalHeader) (intervals : List ℕ) → IsFile a header intervals
        → IsFile b header intervals → a ≡ b }
    ensures one_recording { (bytes : List ℕ) (a b : IntervalHeader) (xs ys : List ℕ) → IsFile bytes a xs
        → IsFile bytes b ys
        → (a ≡ b) × (xs ≡ ys) }
{}
