//! The cells of a sound, decided while it goes on. Read next: `laws`.
ghost use Rattle.std.specs.Prelude.{◌≡◌, ℕ, ◌+◌, ◌^◌, ◌<◌, ◌≤◌, IfSome, IfNone, None, List, [], ◌∷◌, length};
ghost use Rattle.cell_path.specs.declared.cell.Step.{Step};
ghost use Rattle.cell_path.specs.declared.placed.Placed.{Placed};
ghost use Rattle.cell_path.specs.Decided.{TakesEarliest};
ghost use Rattle.cell_path.specs.Decisions.{placed_of, DecisionsEndFor, DecisionsStandFor, Gives, GivesRest, IsNear};
ghost use Rattle.cell_path.specs.Scores.{IsStep};

use crate::cell::Step;
use crate::follow::{DELAY, EVERY, FIRST, decide};
use crate::paths::Paths;
use crate::pending::{Pending, take};
use crate::placed::{Decided, Placed, jumps};
use crate::waiting::Waiting;
use std::marker::Model;

/// The cells of a sound, decided while it goes on, in fixed memory: about 260 KiB.
#[derive(Drop)]
pub struct Decisions {
    paths: Paths,
    /// The steps that wait until there are four.
    pending: Pending,
    count: u64,
    done: u64,
    waiting: Waiting,
    last: Option<Placed>,
}

impl Model for Decisions {
    ghost use Rattle.cell_path.specs.Decisions.{AreDecisions, DecisionsState};

    ghost Value = { DecisionsState };

    ghost view = { λ s. record {
      paths = s.paths;
      pending = s.pending;
      count = s.count;
      done = s.done;
      waiting = s.waiting;
      last = s.last;
    } };

    ghost invariant = { λ s. AreDecisions (record {
      paths = s.paths;
      pending = s.pending;
      count = s.count;
      done = s.done;
      waiting = s.waiting;
      last = s.last;
    }) };
}

impl Decisions {
    /// Before the first step.
    pub fn new() -> Decisions
        ensures stands { DecisionsStandFor result [] [] }
        ensures waiting { result.waiting ≡ [] }
        ensures count { result.count ≡ 0 }
        ensures last { result.last ≡ None }
    {
        Decisions {
            paths: Paths::new(),
            pending: Pending::new(),
            count: 0,
            done: 0,
            waiting: Waiting::new(),
            last: None,
        }
    }

    /// Takes the next step, when all that was decided has been given.
    pub fn feed(&mut self, step: Step)
        requires step { IsStep step }
        requires room { self.old.count < 2 ^ 40 }
        requires given { self.old.waiting ≡ [] }
        ensures stands { (steps : List Step) (given : List Placed) → DecisionsStandFor self.old steps given
            → DecisionsStandFor self.new (step ∷ steps) given }
        ensures count { self.new.count ≡ self.old.count + 1 }
        ensures last { self.new.last ≡ self.old.last }
        ensures many { length self.new.waiting ≤ 1_024 }
    {
        take(&mut self.paths, &mut self.pending, self.count, step);
        self.count += 1;
        if FIRST <= self.count && self.count % EVERY == 0 {
            let best = self.paths.unfinished();
            decide(
                &self.paths,
                best,
                DELAY,
                self.count,
                &mut self.done,
                &mut self.waiting,
            );
        }
    }

    /// Decides all that is left, when the sound has ended and all that was decided has been given.
    pub fn finish(&mut self)
        requires given { self.old.waiting ≡ [] }
        ensures stands { (steps : List Step) (given : List Placed) → DecisionsStandFor self.old steps given
            → DecisionsEndFor self.new steps given }
        ensures count { self.new.count ≡ self.old.count }
        ensures last { self.new.last ≡ self.old.last }
        ensures many { length self.new.waiting ≤ 1_024 }
    {
        if 0 < self.count {
            let left = self.count % 4;
            self.paths.finish(self.pending, left);
            let best = self.paths.best();
            decide(
                &self.paths,
                best,
                0,
                self.count,
                &mut self.done,
                &mut self.waiting,
            );
            self.paths.undo(left);
        }
    }

    /// The next cell that is decided, the earliest first.
    pub fn give(&mut self) -> Option<Decided>
        ensures gives { (steps : List Step) (given : List Placed) → DecisionsStandFor self.old steps given
            → Gives self.new steps given result }
        ensures rest { (steps : List Step) (given : List Placed) → DecisionsEndFor self.old steps given
            → GivesRest self.new steps given result }
        ensures waiting { TakesEarliest self.old.waiting self.new.waiting (placed_of result) }
        ensures near { IfSome result (λ cell. IsNear self.old self.new cell) }
        ensures none { IfNone result (self.new ≡ self.old) }
        ensures count { self.new.count ≡ self.old.count }
    {
        let placed = self.waiting.pop()?;
        let jumps = jumps(self.last, placed);
        self.last = Some(placed);
        Some(Decided { placed, jumps })
    }
}
