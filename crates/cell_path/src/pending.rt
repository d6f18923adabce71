//! Steps that wait until there are four. Read next: `paths`.
ghost use Rattle.std.specs.Prelude.{◌≡◌, ◌+◌, ◌%◌, ◌^◌, ◌≤◌, List, ◌∷◌};
ghost use Rattle.cell_path.specs.declared.cell.Step.{Step};
ghost use Rattle.cell_path.specs.Paths.{PathsStandFor};
ghost use Rattle.cell_path.specs.Pending.{no_step, steps_of, StandsWith};
ghost use Rattle.cell_path.specs.Scores.{AreSteps, IsStep};

use crate::cell::Step;
use crate::paths::Paths;

/// The latest steps, the earliest first.
#[derive(Clone, Copy)]
pub struct Pending {
    pub first: Step,
    pub second: Step,
    pub third: Step,
}

impl Pending {
    /// None yet.
    pub(crate) fn new() -> Pending
        ensures { result ≡ record { first = no_step; second = no_step; third = no_step } }
    {
        let none = Step { sound: 0, level: 0 };
        Pending {
            first: none,
            second: none,
            third: none,
        }
    }
}

/// Takes the next step behind so many: the fourth of four brings them into the paths.
pub(crate) fn take(paths: &mut Paths, pending: &mut Pending, count: u64, step: Step)
    requires room { paths.old.marks.count ≤ 2 ^ 40 }
    requires next { count ≤ 2 ^ 40 }
    ensures count { paths.new.marks.count + (count + 1) % 4 ≡ paths.old.marks.count + count % 4 + 1 }
    ensures stands { (steps : List Step) → IsStep step → StandsWith paths.old pending.old count steps
        → StandsWith paths.new pending.new (count + 1) (step ∷ steps) }
{
    match count % 4 {
        0 => pending.first = step,
        1 => pending.second = step,
        2 => pending.third = step,
        _ => paths.feed(pending.first, pending.second, pending.third, step),
    }
}
