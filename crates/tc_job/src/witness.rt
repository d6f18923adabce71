//! Whether words are asked for a witness.

/// What each word that is read is asked for, so that it counts. A word that has not what it is asked for is
/// refused.
#[derive(Clone, Copy)]
pub enum Witness {
    /// Nothing: each word counts.
    NotAsked,
    /// A witness: another word's sync word beside it.
    Asked,
    /// A witness, or the word that follows it on the tape: one that is beside it and has the next label.
    Consecutive,
    /// A word that counts on with it: the word before it, whatever came between, or what comes next.
    Counted,
}
