//! What a word is asked for. Read next: `reading`.

/// What each word that is read is asked for, so that it counts. One that has not what it is asked for is alone.
#[derive(Clone, Copy)]
pub enum Witness {
    /// Nothing: each word counts.
    NotAsked,
    /// A witness: another word's sync word beside it, or the edge of its stretch.
    Asked,
    /// A witness, or the word that follows it on the tape: one that is beside it and has the next label.
    Consecutive,
    /// A word that counts on with it: the word before it, whatever came between, or what comes next.
    Counted,
}
