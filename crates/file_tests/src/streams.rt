//! What the calls answer one after another, by hand.
ghost use Rattle.std.specs.Prelude.{◌≤◌, length, IfOk, None};

use std::alloc::Global;
use std::io;
use std::io::{ErrorKind, Read, Write};
use std::test::Fail;
use tc_io::{
    Failed, MemorySink, MemorySource, ReadSource, Sink, Source, SteadySource, WriteSink, push_all,
};

/// What a reader or a writer answers once.
#[derive(Clone, Copy)]
enum Answer {
    /// No byte.
    Nothing,
    /// One byte.
    One,
    /// All bytes that there was room for.
    All,
    /// The error of the operating system with this number.
    Fault(i32),
    /// An error of this kind that is not the operating system's.
    Kind(ErrorKind),
}

/// A reader or a writer with given answers, one a call, and from the fourth call on
/// with no byte. A byte that is read is the number of the call, from 1.
#[derive(Drop)]
struct Told {
    answers: [Answer; 3],
    calls: u8,
}

impl Told {
    fn answer(&mut self, len: usize) -> io::Result<usize>
        ensures { IfOk result (λ count. count ≤ len) }
    {
        let place = usize::from(self.calls);
        self.calls = self.calls.saturating_add(1);
        if place >= 3 {
            return Ok(0);
        }
        match self.answers[place] {
            Answer::Nothing => Ok(0),
            Answer::One => Ok(len.min(1)),
            Answer::All => Ok(len),
            Answer::Fault(code) => Err(io::Error::from_raw_os_error(code)),
            Answer::Kind(kind) => Err(io::Error::new(kind, "told")),
        }
    }
}

impl Read for Told {
    fn read(&mut self, buf: &mut [u8]) -> io::Result<usize> {
        let count = self.answer(buf.len())?;
        let number = self.calls;
        buf[..count].fill(number);
        Ok(count)
    }
}

impl Write for Told {
    fn write(&mut self, buf: &[u8]) -> io::Result<usize> {
        self.answer(buf.len())
    }

    fn flush(&mut self) -> io::Result<()> {
        Ok(())
    }
}

/// A sink that takes at most `most` bytes of a piece, of which one push fails, and which notes
/// how it was called.
#[derive(Drop)]
struct Noting {
    pushes: u64,
    failing: u64,
    most: usize,
    taken: usize,
    faults: u64,
}

impl Sink for Noting {
    ghost written = { λ _. None };

    ghost faults = { λ s. s.faults };

    fn push(&mut self, piece: &[u8]) -> Result<usize, Failed> {
        self.pushes = self.pushes.wrapping_add(1);
        if self.pushes == self.failing {
            self.faults = self.faults.saturating_add(1);
            return Err(Failed);
        }
        let taken = piece.len().min(self.most.max(1));
        self.taken = self.taken.wrapping_add(taken);
        Ok(taken)
    }
}

/// The answers that are tried, each beside each.
const ANSWERS: [Answer; 4] = [Answer::Nothing, Answer::One, Answer::All, Answer::Fault(4)];

/// The greatest number of an error of the operating system.
const LAST_ERROR: i32 = 133;

/// The kinds of errors that have no such number.
const KINDS: [ErrorKind; 4] = [
    ErrorKind::InvalidData,
    ErrorKind::WriteZero,
    ErrorKind::UnexpectedEof,
    ErrorKind::Other,
];

/// Lengths of pieces and buffers: one byte, a line, the buffer of the program, and more than it has.
const LENGTHS: [usize; 4] = [1, 200, 4_096, 70_000];

#[test]
fn a_steady_source_gives_what_fits(rt: HostRuntime) -> Result<(), Fail> {
    let mut source = SteadySource::new(rt.alloc(), b"abc")?;
    let mut buf = *b"..";
    for (count, given) in [(2, *b"ab"), (1, *b"cb"), (0, *b"cb")] {
        assert!(rt; source.pull(&mut buf).ok() == Some(count) && buf == given);
    }
    Ok(())
}

#[test]
fn a_source_fails_where_it_is_told_to(rt: HostRuntime) -> Result<(), Fail> {
    let mut source = MemorySource::new(rt.alloc(), b"abc", &[1], &[2])?;
    let mut buf = *b"..";
    for (answer, first) in [
        (Some(1), b'a'),
        (None, b'a'),
        (Some(1), b'b'),
        (Some(1), b'c'),
        (Some(0), b'c'),
    ] {
        assert!(rt; source.pull(&mut buf).ok() == answer && buf[0] == first);
    }
    Ok(())
}

#[test]
fn the_pieces_go_round(rt: HostRuntime) -> Result<(), Fail> {
    let mut source = MemorySource::new(rt.alloc(), b"abcdefgh", &[3, 0], &[])?;
    let mut buf = [0; 4];
    for count in [3, 1, 3, 1, 0, 0] {
        assert!(rt; source.pull(&mut buf).ok() == Some(count));
    }
    Ok(())
}

/// Pushes each piece, and whether the answers and what was written are these.
fn takes(sink: &mut MemorySink, pieces: &[(&[u8], bool)], written: &[u8]) -> bool {
    for (piece, is_taken) in pieces {
        if push_all(sink, piece).is_ok() != *is_taken {
            return false;
        }
    }
    sink.written() == written
}

#[test]
fn what_fits_is_written_before_a_fault(rt: HostRuntime) -> Result<(), Fail> {
    let mut sink = MemorySink::new(rt.alloc(), 2, &[])?;
    assert!(rt; takes(&mut sink, &[(b"abc", false), (b"", true)], b"ab"));
    let mut failing = MemorySink::new(rt.alloc(), 9, &[2])?;
    let pieces: [(&[u8], bool); 3] = [(b"abc", true), (b"def", false), (b"ghi", true)];
    assert!(rt; takes(&mut failing, &pieces, b"abcghi"));
    Ok(())
}

/// Sources and a sink for this many bytes find their memory.
fn is_found(alloc: Global, bytes: &[u8]) -> Result<(), Fail> {
    let len = bytes.len();
    SteadySource::new(alloc, bytes)?;
    MemorySource::new(alloc, bytes, &[len], &[len as u64])?;
    MemorySink::new(alloc, len, &[len as u64])?;
    Ok(())
}

#[test]
fn memory_is_had_whatever_the_length(rt: HostRuntime) -> Result<(), Fail> {
    let bytes = [7; 5_000];
    for len in 0..5_000 {
        is_found(rt.alloc(), &bytes[..len])?;
    }
    Ok(())
}

#[test]
fn memory_is_had_for_a_long_input(rt: HostRuntime) -> Result<(), Fail> {
    let bytes = vec![in rt.alloc(); 7; 2_000_000]?;
    for len in [99_999, 100_000, 100_001, 1_048_577, 2_000_000] {
        assert!(rt; goes_through(rt.alloc(), &bytes, len)?);
    }
    Ok(())
}

/// The first `len` bytes are pulled from each source and pushed to a sink, for which there is memory.
fn goes_through(alloc: Global, bytes: &[u8], len: usize) -> Result<bool, Fail> {
    let Some(piece) = bytes.get(..len) else {
        return Ok(false);
    };
    let mut buf = [0; 4_096];
    let mut source = MemorySource::new(alloc, piece, &[len], &[len as u64])?;
    let mut steady = SteadySource::new(alloc, piece)?;
    let mut sink = MemorySink::new(alloc, len, &[len as u64])?;
    Ok(
        source.pull(&mut buf).ok() == Some(4_096)
            && steady.pull(&mut buf).ok() == Some(4_096)
            && push_all(&mut sink, piece).is_ok(),
    )
}

/// What a pull makes of an answer of the reader: it fails at a fault.
fn pulled(answer: Answer, len: usize) -> Option<usize> {
    match answer {
        Answer::Nothing => Some(0),
        Answer::One => Some(1),
        Answer::All => Some(len),
        Answer::Fault(_) | Answer::Kind(_) => None,
    }
}

/// Pulls three times, and says whether each is what the reader answers: one read a pull.
fn pulls(answers: [Answer; 3], buf: &mut [u8]) -> bool
    requires { 1 ≤ length buf.old }
{
    let mut source = ReadSource::new(Told { answers, calls: 0 });
    let len = buf.len();
    for call in 0..3u8 {
        let answer = answers[usize::from(call)];
        if source.pull(buf).ok() != pulled(answer, len) {
            return false;
        }
        if matches!(&answer, Answer::One | Answer::All) && buf[0] != call + 1 {
            return false;
        }
    }
    true
}

/// What a push makes of an answer of the writer: a write that takes nothing is a fault.
fn pushed(answer: Answer, len: usize) -> Option<usize> {
    match answer {
        Answer::Nothing => None,
        _ => pulled(answer, len),
    }
}

/// Pushes three times, and says whether each is what the writer answers: one write a push.
fn pushes(answers: [Answer; 3], piece: &[u8]) -> bool {
    let mut sink = WriteSink::new(Told { answers, calls: 0 });
    for answer in answers {
        if sink.push(piece).ok() != pushed(answer, piece.len()) {
            return false;
        }
    }
    true
}

/// Three of the answers, by a number below 64.
fn three(number: usize) -> [Answer; 3] {
    [
        ANSWERS[number / 16 % 4],
        ANSWERS[number / 4 % 4],
        ANSWERS[number % 4],
    ]
}

#[test]
fn a_pull_is_one_read(rt: HostRuntime) {
    let mut whole = [0; 70_000];
    for len in LENGTHS {
        for number in 0..64usize {
            assert!(rt;
                pulls(three(number), &mut whole[..len]),
                "{len} bytes, answers {number}"
            );
        }
    }
}

#[test]
fn a_push_is_one_write(rt: HostRuntime) {
    let whole = [7; 70_000];
    for len in LENGTHS {
        for number in 0..64usize {
            assert!(rt;
                pushes(three(number), &whole[..len]),
                "{len} bytes, answers {number}"
            );
        }
    }
}

/// Whether an error between two answers is tried again neither by a pull nor by a push.
fn is_told_once(error: Answer) -> bool {
    let answers = [Answer::One, error, Answer::All];
    pulls(answers, &mut [0; 200]) && pushes(answers, &[7; 200])
}

#[test]
fn no_error_is_tried_again(rt: HostRuntime) {
    for code in 1..=LAST_ERROR {
        assert!(rt; is_told_once(Answer::Fault(code)), "error {code}");
    }
    for kind in KINDS {
        assert!(rt; is_told_once(Answer::Kind(kind)));
    }
}

#[test]
fn a_reader_at_its_end_is_no_fault(rt: HostRuntime) {
    let mut source = ReadSource::new(b"abc".as_slice());
    let mut buf = *b"..";
    for count in [2, 1, 0, 0] {
        assert!(rt; source.pull(&mut buf).ok() == Some(count));
    }
}

/// Pushes a piece in parts of at most `most` bytes, of which one push fails: whether no push comes after it,
/// and none that was not needed.
fn stops_at_a_fault(piece: &[u8], most: usize, failing: u64) -> bool
    requires part { 1 ≤ most }
    requires number { 1 ≤ failing }
{
    let mut sink = Noting {
        pushes: 0,
        failing,
        most,
        taken: 0,
        faults: 0,
    };
    let len = piece.len();
    let before = most.wrapping_mul(failing as usize - 1);
    let is_whole = push_all(&mut sink, piece).is_ok();
    if before < len {
        !is_whole && sink.pushes == failing && sink.taken == before
    } else {
        is_whole && sink.pushes == len.div_ceil(most) as u64 && sink.taken == len
    }
}

/// In parts of each of three lengths, each of the first three pushes fails.
fn stops_in_each_part(piece: &[u8]) -> bool {
    for most in [1, 150, 5_000] {
        for failing in 1..4u64 {
            if !stops_at_a_fault(piece, most, failing) {
                return false;
            }
        }
    }
    true
}

#[test]
fn nothing_is_pushed_after_a_fault(rt: HostRuntime) {
    let whole = [7; 70_000];
    for len in 0..5_001 {
        assert!(rt; stops_in_each_part(&whole[..len]), "{len} bytes");
    }
    for len in LENGTHS {
        assert!(rt; stops_in_each_part(&whole[..len]), "{len} bytes");
    }
}

#[test]
fn nothing_of_an_empty_piece_is_no_fault(rt: HostRuntime) {
    let answers = [Answer::Nothing, Answer::All, Answer::Fault(4)];
    let mut sink = WriteSink::new(Told { answers, calls: 0 });
    assert!(rt; sink.push(b"").ok() == Some(0));
    assert!(rt; sink.push(b"ab").ok() == Some(2));
    assert!(rt; sink.push(b"").is_err());
}
