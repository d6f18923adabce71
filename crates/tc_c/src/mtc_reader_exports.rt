//! The functions of a reader of MIDI Time Code that C calls. Read next: `label`.
ghost use Rattle.std.specs.Prelude.{◌≡◌, ◌≤◌, ◌<◌, [], length, take, drop, false};
ghost use Rattle.std.specs.Align.{type_align};
ghost use Rattle.std.specs.Mem.{type_size};
ghost use Rattle.tc_c.specs.contracts.mtc_reader_kept.KeptMtcReader.{the_row};
ghost use Rattle.tc_c.specs.CMtc.{is_full_of_bytes, HasTold};
ghost use Rattle.tc_c.specs.Write.{MtcGoes};

use crate::mtc_event::TcMtcEvent;
use crate::mtc_read::read_mtc;
use crate::mtc_reader_handle::TcMtcReader;
use crate::mtc_reader_kept::KeptMtcReader;
use crate::write::TcTaken;
use mtc_reader::MtcReader;

/// How many bytes a reader of MIDI Time Code takes.
#[unsafe(no_mangle)]
pub extern "C" fn tc_mtc_reader_bytes() -> usize
    ensures { result ≡ type_size the_row }
{
    std::mem::size_of::<KeptMtcReader>()
}

/// On what boundary they begin.
#[unsafe(no_mangle)]
pub extern "C" fn tc_mtc_reader_boundary() -> usize
    ensures { result ≡ type_align the_row }
{
    std::mem::align_of::<KeptMtcReader>()
}

/// Begins anew.
#[unsafe(no_mangle)]
pub extern "C" fn tc_mtc_reader_start_(handle: &mut TcMtcReader)
    ensures stands { HasTold handle.new.value [] [] }
    ensures ready { is_full_of_bytes handle.new.value ≡ false }
    ensures place { handle.new.at ≡ handle.old.at }
{
    handle.reader().reader = MtcReader::new();
}

/// Takes bytes from the front, and writes the labels that they complete, as long as there is room.
#[unsafe(no_mangle)]
pub extern "C" fn tc_mtc_reader_read_(
    handle: &mut TcMtcReader,
    bytes: &[u8],
    events: &mut [TcMtcEvent],
) -> TcTaken
    ensures used { result.used ≤ length bytes.now }
    ensures made { result.made ≤ length events.old }
    ensures goes { MtcGoes handle.old.value handle.new.value (take result.used bytes.now)
        (take result.made events.new) }
    ensures rest { drop result.made events.new ≡ drop result.made events.old }
    ensures all { result.made < length events.old → result.full ≡ false → result.used ≡ length bytes.now }
    ensures few { length events.old ≡ 0 → (result.used ≡ 0) × (result.made ≡ 0)
        × (handle.new.value ≡ handle.old.value) }
    ensures full { result.full ≡ is_full_of_bytes handle.new.value }
    ensures place { handle.new.at ≡ handle.old.at }
{
    read_mtc(&mut handle.reader().reader, bytes, events)
}
