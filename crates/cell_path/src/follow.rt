//! Following the best path back to what was decided before. Read next: `placed`.
ghost use Rattle.std.specs.Prelude.{◌≡◌, ◌+◌, ◌^◌, ◌<◌, ◌≤◌, List, drop, length};
ghost use Rattle.cell_path.specs.declared.cell.Cell.{Cell};
ghost use Rattle.cell_path.specs.declared.cell.Step.{Step};
ghost use Rattle.cell_path.specs.declared.lengths.TheConstants.{LENGTHS};
ghost use Rattle.cell_path.specs.Best.{EndsIn, IsBestOfAll};
ghost use Rattle.cell_path.specs.Decided.{end_behind, newly};
ghost use Rattle.cell_path.specs.Spaced.{AreSpaced};
ghost use Rattle.cell_path.specs.KeptMarks.{MarksStandFor};

use crate::lengths::length_at;
use crate::paths::Paths;
use crate::placed::Placed;
use crate::point::Point;
use crate::waiting::Waiting;

/// By how many steps a cell ends before it is decided: 30 to 57 cells at play speed, where paths that end
/// differently have long met.
pub const DELAY: u64 = 800;

/// The steps from one decision to the next: the path is followed back over some 1,900 steps, so that
/// a step pays for less than two.
pub const EVERY: u64 = 1_024;

/// The steps before the first decision: after 1,024 it would decide 224 only.
pub const FIRST: u64 = 2_048;

/// The cells of the path that ended `delay` steps ago or earlier, after what was decided before, which ended
/// at `done`.
fn decided_now(paths: &Paths, best: Point, delay: u64, count: u64, done: u64) -> Waiting
    requires count { count ≡ paths.now.marks.count }
    requires first { 0 < delay → 2_048 ≤ count }
    requires delay { delay ≤ 800 }
    requires room { count ≤ 2 ^ 40 }
    requires some { 0 < count }
    requires behind { done ≤ count }
    requires near { count ≤ done + 2_048 }
    requires latest { best.ago < 96 }
    requires within { best.ago < count }
    requires place { best.place < 45 }
    ensures decided { (steps : List Step) (path : List Cell) → MarksStandFor paths.now.marks steps
        → IsBestOfAll LENGTHS (drop best.ago steps) path → EndsIn best.place best.sign path
        → result ≡ newly delay count best.ago done path }
    ensures near { count ≤ end_behind done result + delay + 119 }
    ensures behind { end_behind done result ≤ count }
    ensures spaced { AreSpaced 120 done result }
{
    let mut waiting = Waiting::new();
    let mut at = Some(best);
    'cells: while let Some(point) = at {
        let end = count - point.ago as u64;
        if end <= done + length_at(point.place) as u64 / 4 {
            break;
        }
        let back = paths.back(point);
        if end + delay <= count {
            waiting.push(Placed {
                end,
                cell: back.cell,
            });
        }
        at = back.before;
    }
    waiting
}

/// Takes a decision on a path that ends in a point, when all that was decided before has been given.
// Out of line, since the room for a list is cleared on entry, which a step does not have to pay.
#[cold]
#[inline(never)]
pub(crate) fn decide(
    paths: &Paths,
    best: Point,
    delay: u64,
    count: u64,
    done: &mut u64,
    waiting: &mut Waiting,
)
    requires count { count ≡ paths.now.marks.count }
    requires first { 0 < delay → 2_048 ≤ count }
    requires delay { delay ≤ 800 }
    requires room { count ≤ 2 ^ 40 }
    requires some { 0 < count }
    requires behind { done.old ≤ count }
    requires near { count ≤ done.old + 2_048 }
    requires latest { best.ago < 96 }
    requires within { best.ago < count }
    requires place { best.place < 45 }
    ensures decided { (steps : List Step) (path : List Cell) → MarksStandFor paths.now.marks steps
        → IsBestOfAll LENGTHS (drop best.ago steps) path → EndsIn best.place best.sign path
        → waiting.new ≡ newly delay count best.ago done.old path }
    ensures done { done.new ≡ end_behind done.old waiting.new }
    ensures many { length waiting.new ≤ 1_024 }
    ensures near { count ≤ done.new + delay + 119 }
    ensures behind { done.new ≤ count }
    ensures spaced { AreSpaced 120 done.old waiting.new }
{
    *waiting = decided_now(paths, best, delay, count, *done);
    *done = waiting.end_behind(*done);
}
