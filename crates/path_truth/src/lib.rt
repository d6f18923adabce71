//! The best path through the sound of a steady tape is the tape, with noise too, and its intervals
//! are those of the tape.
//!
//! A steady tape has cells of one length, and a zero among them. Its sound keeps its sides if each
//! step is on the side of its cell: a zero has one, and a one has one in its first half and the
//! other in its second. How far from zero a step is makes no difference, and neither does the level
//! by which costs are measured, from 1 on. So noise may be anything that does not reach the size of
//! the sound.
//!
//! Why it holds: a step counts once with a sign, or not at all, and no cost is below zero. So no
//! score is greater than the sum of the sizes, and the tape has that score. A path that has it too
//! counts each step with its own sign and pays nothing. So its cells have one length, and change
//! sides where the tape's do: it is the tape, or it has ones of twice the length, and comes later
//! in the order of paths.
//!
//! Samples become steps on their sides if no size is greater than 14/3 of another: clipping never
//! cuts below the smallest, and half of the mean size is added on the sample's own side, or does
//! not reach the sample. The gate refuses no cell if no size is greater than 12/5 of another.
//!
//! What this crate promises, all of it by laws:
//! - No score of a path is greater than the sum of the sizes of the sound, and the tape has that
//!   score (`specs/Tape.antt`, `IsSteady`; `specs/Sides.antt`, `sum_of_sizes`, `KeepsItsSides`).
//! - The best path is the tape (`laws::the_best_path_of_a_steady_tape_is_the_tape`), as in the
//!   worked sound (`specs/Worked.antt`). Where decisions fall due within a cell, the best unfinished
//!   path is the tape up to that cell. So all cells of the tape are decided, and no others, if a zero
//!   comes before the first decision (`specs/Early.antt`, `HasAnEarlyZero`). While the sound goes on,
//!   those are that had ended in time (`specs/SoFar.antt`, `ended_in_time`).
//! - Noise below the size of a step keeps its side, and each tape of an even length has a sound.
//! - A tape of ones alone is read as zeros of half the length, and each other premise is needed too
//!   (`specs/Lost.antt`).
//! - So it is from the samples on, if each of them is one step or more (`specs/Sound.antt`,
//!   `IsSoundOf`; `sound_laws`): noise of up to 11/17 of the level of a square wave leaves its best
//!   path, and noise of up to 7/17 its intervals (`specs/Wave.antt`, `specs/Intervals.antt`), if the level
//!   less the noise is the least threshold or more. The front cuts one tick off the first of them. Two laws
//!   say it in numbers, of any bits with a zero among them.
//!
//! Read `specs/Tape.antt`, `Sides`, `Early`, `SoFar`, `Worked` and `Lost`, in this order, and `laws` beside
//! them; then `specs/Sound.antt`, `Wave` and `Intervals`, and `sound_laws`. The tape begins and
//! ends with the sound. No law says what is read if noise is greater, if the speed changes, or if
//! samples are summed in a step. Nothing here runs.
#![tactic(auto)]

pub mod laws;
pub mod sound_laws;
