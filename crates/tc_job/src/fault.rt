//! The first fault of the words.
use std::alloc::AllocError;
use thiserror::Error;

/// The first fault of the words, in the order of these variants, and lack of memory.
#[derive(Clone, Copy, Debug, Drop, Error)]
pub enum WordsFault {
    /// This word begins with a dash.
    #[error("Dash")]
    Dash(usize),
    /// There is no word, or the first one is no command.
    #[error("Command")]
    Command,
    /// The command has another number of words.
    #[error("CountOfWords")]
    CountOfWords,
    /// This word has no value.
    #[error("Value")]
    Value(usize),
    /// There is no memory to read the words.
    #[error("Memory")]
    Memory(AllocError),
}
