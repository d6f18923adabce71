//! What a frame comes to in each mode, by the error of that frame. Read next: `report`.
ghost use Rattle.std.specs.Prelude.{◌≡◌, ◌≤◌, pos, ◌+ℤ◌, None, unsigned_abs};
ghost use Rattle.chase_core.specs.Step.{held, motion_of, table_row, located, pulled, kept, is_near};

use crate::mode::Mode;
use crate::report::Loss;
use tc_address::Direction;

/// What comes of a frame: the mode after it, and the parts of its report.
#[derive(Clone, Copy)]
pub(crate) struct Outcome {
    pub mode: Mode,
    pub error: i32,
    pub order: i32,
    pub loss: Option<Loss>,
}

/// Half a frame, in subframes: how far a locked transport may be from its place.
const WINDOW: u32 = 40;

/// How far a locating transport goes in a step at most, in subframes: 32 frames.
const MOST_LOCATING: u32 = 2_560;

/// By how much a pulling transport goes beside its master in a step at most, in subframes: 16 frames.
const MOST_PULLING: u32 = 1_280;

/// By how much a locked one does, in subframes.
const MOST_LOCKED: u32 = 24;

/// How far a frame carries a master, in subframes.
fn motion(direction: Direction) -> i32
    ensures { result ≡ motion_of direction }
{
    match direction {
        Direction::Forward => 80,
        Direction::Backward => -80,
    }
}

/// The error, held between -most and most.
fn held(error: i32, most: u32) -> i32
    requires { most ≤ 2_560 }
    ensures value { result ≡ held most error }
    ensures within { unsigned_abs result ≤ most }
{
    error.clamp(-(most as i32), most as i32)
}

/// Whether an error is at most half a frame.
fn is_near(error: i32) -> bool
    ensures { result ≡ is_near error }
{
    error.unsigned_abs() <= WINDOW
}

/// Nothing is moved, and no error is taken.
pub(crate) fn still(mode: Mode, loss: Option<Loss>) -> Outcome
    ensures value { result ≡ table_row mode (pos 0) (pos 0) loss }
    ensures order { unsigned_abs result.order ≤ 2_560 }
{
    Outcome {
        mode,
        error: 0,
        order: 0,
        loss,
    }
}

/// On the way to a label.
pub(crate) fn located(target: u32, error: i32) -> Outcome
    ensures value { result ≡ located target error }
    ensures order { unsigned_abs result.order ≤ 2_560 }
{
    if is_near(error) {
        Outcome {
            mode: Mode::Waiting,
            error,
            order: 0,
            loss: None,
        }
    } else {
        Outcome {
            mode: Mode::Locating(target),
            error,
            order: held(error, MOST_LOCATING),
            loss: None,
        }
    }
}

/// With the master, and back by the error, up to a bound.
fn followed(mode: Mode, direction: Direction, error: i32, most: u32) -> Outcome
    requires { most ≤ 1_280 }
    ensures value { result ≡ table_row mode error (motion_of direction +ℤ held most error) None }
    ensures order { unsigned_abs result.order ≤ 2_560 }
{
    Outcome {
        mode,
        error,
        order: motion(direction) + held(error, most),
        loss: None,
    }
}

/// With the master, not locked before this frame.
pub(crate) fn pulled(direction: Direction, error: i32) -> Outcome
    ensures value { result ≡ pulled direction error }
    ensures order { unsigned_abs result.order ≤ 2_560 }
{
    if is_near(error) {
        followed(Mode::Locked, direction, error, MOST_LOCKED)
    } else {
        followed(Mode::Pulling, direction, error, MOST_PULLING)
    }
}

/// With the master, locked before this frame.
pub(crate) fn kept(direction: Direction, error: i32) -> Outcome
    ensures value { result ≡ kept direction error }
    ensures order { unsigned_abs result.order ≤ 2_560 }
{
    let outcome = pulled(direction, error);
    if is_near(error) {
        outcome
    } else {
        Outcome {
            loss: Some(Loss::Window(error)),
            ..outcome
        }
    }
}
