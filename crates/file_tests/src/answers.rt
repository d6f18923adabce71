//! Answers that no run of the program shows, and lines of the greatest numbers.
use chase_core::{Loss, State, StepReport};
use chase_script::{Column, ScriptFault, script_rows, step_text};
use ltc_word::{WordFault, decode};
use std::test::Fail;
use tape_spans::{Mark, Span, span_text};
use tc_address::{Count, Direction, Label, LabelFault, System, TextFault, read_text};
use tc_bits::{Fields, Flags, UserBits};

/// Texts that are no label, and the first fault of each.
const TEXTS: [(Count, &[u8], TextFault); 8] = [
    (Count::C25, b"01:00:00:0", TextFault::Length),
    (Count::C25, b"01:00:00:000", TextFault::Length),
    (Count::C25, b"01:00:00;00", TextFault::Byte(8)),
    (Count::Drop30, b"01:00:00:00", TextFault::Byte(8)),
    (Count::C25, b"0x:00:0y:00", TextFault::Byte(1)),
    (Count::C25, b"01;00:00:00", TextFault::Byte(2)),
    (
        Count::C25,
        b"24:60:00:00",
        TextFault::Label(LabelFault::Hours),
    ),
    (
        Count::Drop30,
        b"00:01:00;00",
        TextFault::Label(LabelFault::Dropped),
    ),
];

/// Whether two faults of these rows are the same.
fn is_same(found: TextFault, fault: TextFault) -> bool {
    match (found, fault) {
        (TextFault::Length, TextFault::Length) => true,
        (TextFault::Byte(place), TextFault::Byte(wanted)) => place == wanted,
        (TextFault::Label(LabelFault::Hours), TextFault::Label(LabelFault::Hours)) => true,
        (TextFault::Label(LabelFault::Dropped), TextFault::Label(LabelFault::Dropped)) => true,
        _ => false,
    }
}

#[test]
fn the_first_fault_of_a_text(rt: HostRuntime) {
    for (count, spelled, fault) in TEXTS {
        assert!(rt; matches!(read_text(spelled, count), Err(found) if is_same(found, fault)));
    }
}

#[test]
fn the_drop_frame_flag_tells_the_count_at_30(rt: HostRuntime) -> Result<(), Fail> {
    for (count, drop_frame, agrees) in [
        (Count::C24, true, true),
        (Count::C25, true, true),
        (Count::C30, false, true),
        (Count::C30, true, false),
        (Count::Drop30, false, false),
        (Count::Drop30, true, true),
    ] {
        let flags = Flags {
            drop_frame,
            colour_frame: true,
            group_flag_zero: false,
            group_flag_one: true,
            group_flag_two: false,
        };
        let label = Label::new(count, 1, 2, 3, 4)?;
        assert!(rt; Fields::new(label, flags, UserBits::new(7)).is_ok() == agrees);
    }
    Ok(())
}

/// Bits that end in no sync word, and the first bit of it that is wrong.
const NO_SYNC: [(u128, u32); 4] = [
    (0, 66),
    (0xbffd_0000_0000_0000_000f, 64),
    (0x3ffc_0000_0000_0000_000f, 79),
    (0xffff_ffff_ffff_ffff_ffff, 64),
];

#[test]
fn the_first_wrong_bit_of_a_sync_word(rt: HostRuntime) {
    for (bits, bit) in NO_SYNC {
        let word = decode(System::F25, bits % (1 << 80));
        assert!(rt; matches!(word, Err(WordFault::Sync(wrong)) if wrong == bit));
    }
}

/// The greatest numbers that a recording can say: 1,000,000,000 intervals of at most 16,777,215 ticks, 80
/// or more to a word, and 255 invented frames between two words.
#[test]
fn the_greatest_numbers_fill_a_line(rt: HostRuntime) -> Result<(), Fail> {
    let first = Mark {
        label: Label::new(Count::C24, 0, 0, 0, 1)?,
        direction: Direction::Backward,
        tick: 16_777_000_000_000_000,
    };
    let span = Span {
        first,
        last: Mark {
            label: Label::new(Count::C24, 0, 0, 0, 0)?,
            tick: 16_777_215_000_000_000,
            ..first
        },
        heard: 12_500_000,
        bridged: 3_187_499_745,
    };
    let line: &[u8] =
        b"span backward 00:00:00:01 00:00:00:00 heard 12500000 bridged 3187499745 tick 16777000000000000 16777215000000000 speed 62015498\n";
    assert!(rt; span_text(&span, 100_000_000, System::F24).as_slice() == line);
    assert!(rt; line.len() == 128);
    Ok(())
}

#[test]
fn the_longest_line_of_a_step(rt: HostRuntime) {
    let report = StepReport {
        state: State::Locating,
        error: i32::MIN,
        order: i32::MIN,
        loss: Some(Loss::NoCode),
    };
    let line: &[u8] =
        b"step 18446744073709551615 locating error -2147483648 order -2147483648 loss no-code at 23:59:59;29+79\n";
    assert!(rt; step_text(u64::MAX, &report, Count::Drop30, 207_152_639).as_slice() == line);
}

#[test]
fn what_is_refused_or_long_wants_no_memory(rt: HostRuntime) -> Result<(), Fail> {
    let alloc = rt.alloc();
    let mut script = Vec::new(alloc);
    for row in 0..300u64 {
        let Ok(rows) = script_rows(alloc, &script, Count::C25) else {
            return Err("rows of blanks are refused".into());
        };
        assert!(rt; rows.len() as u64 == row);
        script.extend_from_slice(b",,,,\n")?;
    }
    script.extend_from_slice(b",,,,x\n")?;
    let Err(ScriptFault::Row(fault)) = script_rows(alloc, &script, Count::C25) else {
        return Err("the slip is not refused".into());
    };
    assert!(rt; fault.row == 301 && matches!(fault.column, Column::Slip));
    Ok(())
}
