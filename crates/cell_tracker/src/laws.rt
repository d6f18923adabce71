//! What follows from the definition of stretches alone.
ghost use Rattle.std.specs.Prelude.{◌≡◌, ℕ, ◌+◌, List, [], ◌∷◌, ◌++◌, length, reverse, Some, None};
ghost use Rattle.biphase.specs.declared.cell.Cell.{Cell};
ghost use Rattle.biphase.specs.declared.profile.Profile.{Profile};
ghost use Rattle.biphase.specs.declared.cell.Cell.TheVariants.{Zero, One};
ghost use Rattle.biphase.specs.declared.profile.Profile.TheVariants.{Normal, Rough};
ghost use Rattle.biphase.specs.Tolerance.{LooksAtLast};
ghost use Rattle.cell_tracker.specs.EvenRun.{IsEvenRun};
ghost use Rattle.cell_tracker.specs.FoundAgain.{IsSecondLock, AreFrom};
ghost use Rattle.cell_tracker.specs.Growing.{GrowTo};
ghost use Rattle.cell_tracker.specs.ChainPiece.{IsPiece, cells_from, stretch_of_piece};
ghost use Rattle.cell_tracker.specs.Lock.{HasNoLock, IsLock};
ghost use Rattle.cell_tracker.specs.Mirrored.{BeginMirrored};
ghost use Rattle.cell_tracker.specs.PieceEnd.{StandsAtBoundary, StandsInsideOne};
ghost use Rattle.cell_tracker.specs.Recording.{recording, stretch_of};
ghost use Rattle.cell_tracker.specs.StandsFor.{AtCellStandsFor, HuntingStandsFor, MidCellStandsFor};
ghost use Rattle.cell_tracker.specs.State.{AtCellState, HuntingState, MidCellState};
ghost use Rattle.cell_tracker.specs.Stretch.{Stretch, AreStretches, begun, with_break, with_cell};

/// Each list of intervals has its stretches, and only those.
pub fn a_list_has_one_list_of_stretches()
    ensures some { (profile : Profile) (intervals : List ℕ) → (stretches : List Stretch)
        × AreStretches profile intervals stretches }
    ensures one { (profile : Profile) (intervals : List ℕ) (stretches others : List Stretch)
        → AreStretches profile intervals stretches → AreStretches profile intervals others
        → stretches ≡ others }
{}

/// If more intervals follow, the stretches go on: a broken one stays as it is.
pub fn stretches_go_on()
    ensures { (profile : Profile) (front more : List ℕ) (stretches later : List Stretch)
        → AreStretches profile front stretches → AreStretches profile (front ++ more) later
        → GrowTo stretches later }
{}

/// From each place a list has one lock at most.
pub fn a_place_has_one_lock()
    ensures { (profile : Profile) (intervals : List ℕ) (start lock other : ℕ)
        → IsLock profile intervals start lock → IsLock profile intervals start other
        → lock ≡ other }
{}

/// Truth of the reading. A recording within the tolerance has no stretch if no two neighbours of it
/// are unequal. Else it has one, at its lock, without a break, and its cells are those of the
/// recording's own that lie wholly in it from the lock on: of whatever chain it is a piece, they are
/// the same.
pub fn a_recording_within_the_tolerance_is_one_stretch()
    ensures none { (profile : Profile) (intervals : List ℕ) → HasNoLock profile intervals 0
        → AreStretches profile intervals [] }
    ensures one { (profile : Profile) (intervals : List ℕ) (cells : List Cell) (cut lock : ℕ)
        → IsPiece profile intervals cells cut → IsLock profile intervals 0 lock
        → AreStretches profile intervals (stretch_of_piece cells cut intervals lock ∷ []) }
    ensures agree { (profile : Profile) (intervals : List ℕ) (one two : List Cell) (cut other lock : ℕ)
        → IsPiece profile intervals one cut → IsPiece profile intervals two other
        → IsLock profile intervals 0 lock
        → cells_from one cut intervals lock ≡ cells_from two other intervals lock }
{}

/// How the states follow a recording within the tolerance, of whatever chain it is a piece. While the
/// search goes on, no two neighbours were unequal; at a cell the state is at a boundary of the
/// chain, and keeps the length of the cell that ends there; inside a cell it keeps the first half of a
/// one of the chain, and the length of the cell before it.
pub fn states_stand_in_the_recording()
    ensures hunting { (state : HuntingState) (intervals : List ℕ) (stretches : List Stretch) (cells : List Cell)
        (cut : ℕ)
        → HuntingStandsFor state intervals stretches → IsPiece state.profile intervals cells cut
        → HasNoLock state.profile intervals 0 }
    ensures at_cell { (state : AtCellState) (intervals : List ℕ) (earlier : List Stretch) (stretch : Stretch)
        (cells : List Cell) (cut : ℕ)
        → AtCellStandsFor state intervals earlier stretch → IsPiece state.profile intervals cells cut
        → StandsAtBoundary state cells (cut + length intervals) }
    ensures mid_cell { (state : MidCellState) (intervals : List ℕ) (earlier : List Stretch) (stretch : Stretch)
        (cells : List Cell) (cut : ℕ)
        → MidCellStandsFor state intervals earlier stretch → IsPiece state.profile intervals cells cut
        → StandsInsideOne state cells (cut + length intervals) }
{}

/// Resynchronisation, if a cell is compared with the one before it alone: whatever comes before a
/// recording within the tolerance, from the greater interval of its second unequal pair on the cells
/// of the stretches are the recording's own, and nothing breaks behind it.
pub fn a_recording_is_found_again_behind_anything()
    ensures { (profile : Profile) → LooksAtLast profile → (before kept : List ℕ) (cells : List Cell) (cut second : ℕ)
        (stretches : List Stretch) → IsPiece profile kept cells cut → IsSecondLock profile kept second
        → AreStretches profile (before ++ kept) stretches
        → AreFrom (length before + second) (cells_from cells cut kept second) stretches }
{}

/// Resynchronisation under the rough tolerance: whatever comes before a recording within it, which has
/// in it a zero, nine neighbouring ones or more that are even, and a zero behind them, from the greater
/// interval of the next unequal pair behind this zero on the cells of the stretches are the recording's
/// own, and nothing breaks behind it. A sync word has twelve such ones.
pub fn a_recording_is_found_again_behind_even_ones()
    ensures { (before kept : List ℕ) (cells : List Cell) (cut end second : ℕ) (stretches : List Stretch)
        → IsPiece Rough kept cells cut → IsEvenRun kept cells cut end → IsLock Rough kept end second
        → AreStretches Rough (before ++ kept) stretches
        → AreFrom (length before + second) (cells_from cells cut kept second) stretches }
{}

/// A recording with such a run; and one without, whose second unequal pair is not enough. Behind zeros of
/// 36 ticks a zero, a one and a zero of 24 are two ones of 36, so the stretch goes on in their phase.
pub fn rough_recordings_are_found_behind_even_ones_alone()
    ensures run { IsEvenRun
        (32 ∷ 16 ∷ 16 ∷ 16 ∷ 16 ∷ 16 ∷ 16 ∷ 16 ∷ 16 ∷ 16 ∷ 16 ∷ 16 ∷ 16 ∷ 16 ∷ 16 ∷ 16 ∷ 16 ∷ 16 ∷ 16 ∷ 32 ∷ [])
        (Zero 32 ∷ One 16 16 ∷ One 16 16 ∷ One 16 16 ∷ One 16 16 ∷ One 16 16 ∷ One 16 16 ∷ One 16 16 ∷ One 16 16
        ∷ One 16 16 ∷ Zero 32 ∷ []) 0 19 }
    ensures piece { IsPiece Rough (24 ∷ 12 ∷ 12 ∷ 24 ∷ 24 ∷ 12 ∷ 12 ∷ 24 ∷ [])
        (Zero 24 ∷ One 12 12 ∷ Zero 24 ∷ Zero 24 ∷ One 12 12 ∷ Zero 24 ∷ []) 0 }
    ensures second { IsSecondLock Rough (24 ∷ 12 ∷ 12 ∷ 24 ∷ 24 ∷ 12 ∷ 12 ∷ 24 ∷ []) 3 }
    ensures other_phase { AreStretches Rough
        (18 ∷ 36 ∷ 36 ∷ 36 ∷ 36 ∷ 24 ∷ 12 ∷ 12 ∷ 24 ∷ 24 ∷ 12 ∷ 12 ∷ 24 ∷ [])
        (record {
          lock = 1;
          cells = Zero 36 ∷ Zero 36 ∷ Zero 36 ∷ Zero 36 ∷ One 24 12 ∷ One 12 24 ∷ One 24 12
              ∷ One 12 24 ∷ [];
          broken_at = None;
        } ∷ []) }
{}

/// Mirror: if a recording and the same intervals in the other order of time are both within the
/// tolerance, their cells are the same between the greater intervals of the first and of the last unequal
/// pair, each in its order. The lock of the mirror is the number of intervals behind them.
pub fn a_mirrored_recording_has_the_mirrored_cells()
    ensures { (profile : Profile) (intervals : List ℕ) (cells others : List Cell) (cut place first last : ℕ)
        → IsPiece profile intervals cells cut → IsPiece profile (reverse intervals) others place
        → IsLock profile intervals 0 first → IsLock profile (reverse intervals) 0 last
        → BeginMirrored (cells_from cells cut intervals first) (cells_from others place (reverse intervals) last)
        first last (length intervals) }
{}

/// Recordings of 24 ticks a cell: a zero and a one before the word of 00:00:00:00 at 25 frames,
/// alone, with a break behind it and with a half; a zero before this word from its end, and before
/// 80 bits that begin and end in the sync word; a stretch that breaks, and one that begins there.
pub fn small_recordings_have_these_stretches()
    ensures word { AreStretches Normal (recording 82 0x2fff02000000000000002)
        (stretch_of 82 0x2fff02000000000000002 None ∷ []) }
    ensures broken { AreStretches Normal (recording 82 0x2fff02000000000000002 ++ 5 ∷ [])
        (stretch_of 82 0x2fff02000000000000002 (Some 97) ∷ []) }
    ensures half { AreStretches Normal (recording 82 0x2fff02000000000000002 ++ 12 ∷ [])
        (stretch_of 82 0x2fff02000000000000002 None ∷ []) }
    ensures from_its_end { AreStretches Normal (recording 81 0x207ffa) (stretch_of 81 0x207ffa None ∷ []) }
    ensures both { AreStretches Normal (recording 81 0x17ff80000000000007ffa)
        (stretch_of 81 0x17ff80000000000007ffa None ∷ []) }
    ensures two { AreStretches Normal (24 ∷ 12 ∷ 24 ∷ 12 ∷ 12 ∷ [])
        (with_break 2 (begun 0 24) ∷ with_cell (One 12 12) (begun 2 24) ∷ []) }
{}

/// Recordings of the rough tolerance, by hand: the lock at the first unequal pair; a zero too short by
/// a tick, and one that is just long enough; four cells of 125 ticks, of which the next can be longer
/// by a quarter and no more; and the least part of 99 ticks that is half of them, while of 100 it is
/// not.
pub fn rough_recordings_have_these_stretches()
    ensures lock { AreStretches Rough (100 ∷ 100 ∷ 50 ∷ 50 ∷ 100 ∷ [])
        (with_cell (Zero 100) (with_cell (One 50 50) (begun 1 100)) ∷ []) }
    ensures broken { AreStretches Rough (100 ∷ 50 ∷ 50 ∷ 74 ∷ [])
        (with_break 3 (with_cell (One 50 50) (begun 0 100)) ∷ []) }
    ensures short { AreStretches Rough (100 ∷ 50 ∷ 50 ∷ 75 ∷ [])
        (with_cell (Zero 75) (with_cell (One 50 50) (begun 0 100)) ∷ []) }
    ensures long { AreStretches Rough (100 ∷ 50 ∷ 50 ∷ 125 ∷ 125 ∷ 125 ∷ 125 ∷ 156 ∷ [])
        (record {
          lock = 0;
          cells = Zero 100 ∷ One 50 50 ∷ Zero 125 ∷ Zero 125 ∷ Zero 125 ∷ Zero 125 ∷ Zero 156 ∷ [];
          broken_at = None;
        } ∷ []) }
    ensures longer { AreStretches Rough (100 ∷ 50 ∷ 50 ∷ 125 ∷ 125 ∷ 125 ∷ 125 ∷ 157 ∷ [])
        (record {
          lock = 0;
          cells = Zero 100 ∷ One 50 50 ∷ Zero 125 ∷ Zero 125 ∷ Zero 125 ∷ Zero 125 ∷ [];
          broken_at = Some 7;
        } ∷ []) }
    ensures third { AreStretches Rough (99 ∷ 33 ∷ []) (begun 0 99 ∷ []) }
    ensures less { AreStretches Rough (100 ∷ 33 ∷ []) [] }
{}

/// A recording that is found again behind anything, and keeps the normal tolerance in both orders of
/// time: a zero, a one, two zeros and a one of 24 ticks each. Its second unequal pair is that of the
/// one's second half and the zero behind it.
pub fn a_small_recording_is_kept_in_both_orders()
    ensures piece { IsPiece Normal (24 ∷ 12 ∷ 12 ∷ 24 ∷ 24 ∷ 12 ∷ 12 ∷ [])
        (Zero 24 ∷ One 12 12 ∷ Zero 24 ∷ Zero 24 ∷ One 12 12 ∷ []) 0 }
    ensures second { IsSecondLock Normal (24 ∷ 12 ∷ 12 ∷ 24 ∷ 24 ∷ 12 ∷ 12 ∷ []) 3 }
    ensures mirrored { IsPiece Normal (reverse (24 ∷ 12 ∷ 12 ∷ 24 ∷ 24 ∷ 12 ∷ 12 ∷ []))
        (One 12 12 ∷ Zero 24 ∷ Zero 24 ∷ One 12 12 ∷ Zero 24 ∷ []) 0 }
    ensures lock { IsLock Normal (24 ∷ 12 ∷ 12 ∷ 24 ∷ 24 ∷ 12 ∷ 12 ∷ []) 0 0 }
    ensures last { IsLock Normal (reverse (24 ∷ 12 ∷ 12 ∷ 24 ∷ 24 ∷ 12 ∷ 12 ∷ [])) 0 2 }
{}
