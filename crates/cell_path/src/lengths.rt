//! The lengths of cells, and what a path pays. Read next: `cell`.
ghost use Rattle.std.specs.Prelude.{◌≡◌, ◌<◌, ◌≤◌};
ghost use Rattle.cell_path.specs.Lengths.{length_in};

/// The lengths that a cell may have, in steps, the least first: all from 4 to 24, each second one to
/// 48, each fourth to 96. A nominal cell has 14 to 27 steps, so they reach from a quarter of play speed
/// to four times it, and a neighbour is never further away than an eighth, or one step.
pub const LENGTHS: [usize; 45] = [
    4, 5, 6, 7, 8, 9, 10, 11, 12, 13, 14, 15, 16, 17, 18, 19, 20, 21, 22, 23, 24, 26, 28, 30, 32,
    34, 36, 38, 40, 42, 44, 46, 48, 52, 56, 60, 64, 68, 72, 76, 80, 84, 88, 92, 96,
];

/// How many lengths there are.
pub const PLACES: usize = 45;

/// What a jump costs, for each step of the cell behind it, in mean sizes of the sound: more
/// than a cell can be worth in a sound that is all at its mean size.
pub const JUMP: usize = 3;

/// What it costs to begin before the sound does: some forty times what the longest cell can be worth.
pub const EARLY: i64 = 268_435_456;

/// The length in a place of the list.
pub fn length_at(place: usize) -> usize
    requires { place < 45 }
    ensures value { result ≡ length_in LENGTHS place }
    ensures least { 4 ≤ result }
    ensures most { result ≤ 96 }
{
    LENGTHS[place]
}
