//! One run of the program, over a source and sinks that fail at given calls. Read next: `sweeps`.
ghost use Rattle.std.specs.Prelude.{◌≡◌, IfOk};
ghost use Rattle.std.specs.Option.{option_to_list};
ghost use Rattle.tc_command.specs.Status.{code_of};

use std::alloc::{AllocError, Global};
use tc_io::{MemorySink, MemorySource};
use tc_top::{Status, run};

/// A run: its words, its input, and where its source and its sinks fail.
#[derive(Clone, Copy)]
pub struct Trial<'a> {
    pub words: &'a [String],
    pub input: &'a [u8],
    /// How many bytes a pull gives.
    pub pieces: &'a [usize],
    /// The pull that fails, from 1.
    pub failing_pull: Option<u64>,
    /// How many bytes the output takes.
    pub room: usize,
    /// The push that fails, from 1.
    pub failing_push: Option<u64>,
    /// How many bytes the notes take.
    pub notes_room: usize,
}

/// How a run ended.
#[derive(Drop)]
pub struct Ended {
    pub status: Status,
    pub output: Vec<u8>,
    pub note: Vec<u8>,
}

/// Runs trials, and counts them.
#[derive(Drop)]
pub struct Runner {
    pub alloc: Global,
    pub runs: u64,
}

impl<'a> Trial<'a> {
    /// A run in which nothing fails.
    pub fn new(words: &'a [String], input: &'a [u8], room: usize) -> Trial<'a> {
        Trial {
            words,
            input,
            pieces: &[],
            failing_pull: None,
            room,
            failing_push: None,
            notes_room: 100,
        }
    }
}

impl Runner {
    pub fn run(&mut self, trial: &Trial) -> Result<Ended, AllocError> {
        self.runs = self.runs.saturating_add(1);
        let pulls = listed(self.alloc, trial.failing_pull)?;
        let pushes = listed(self.alloc, trial.failing_push)?;
        run_failing(self.alloc, trial, &pulls, &pushes)
    }
}

/// How a run ends in which these pulls and these pushes fail.
fn run_failing(
    alloc: Global,
    trial: &Trial,
    pulls: &[u64],
    pushes: &[u64],
) -> Result<Ended, AllocError> {
    let mut source = MemorySource::new(alloc, trial.input, trial.pieces, pulls)?;
    let mut out = MemorySink::new(alloc, trial.room, pushes)?;
    let mut notes = MemorySink::new(alloc, trial.notes_room, &[])?;
    let status = run(alloc, trial.words, &mut source, &mut out, &mut notes);
    Ok(Ended {
        status,
        output: out.written().to_vec(alloc)?,
        note: notes.written().to_vec(alloc)?,
    })
}

impl Ended {
    /// The number that its status ends with.
    pub fn code(&self) -> u8
        ensures { result ≡ code_of self.now.status }
    {
        self.status.code()
    }
}

/// The number alone, if there is one.
fn listed(alloc: Global, number: Option<u64>) -> Result<Vec<u64>, AllocError>
    ensures { IfOk result (λ numbers. numbers.items ≡ option_to_list number) }
{
    let mut numbers = Vec::new(alloc);
    if let Some(number) = number {
        numbers.push(number)?;
    }
    Ok(numbers)
}

/// The words of a command line.
pub fn words_of(alloc: Global, line: &str) -> Result<Vec<String>, AllocError> {
    let mut words = Vec::new(alloc);
    for word in line.split_ascii_whitespace() {
        words.push(String::from_str(alloc, word)?)?;
    }
    Ok(words)
}
