//! What lies between two spans. Read next: `texts`.
ghost use Rattle.std.specs.Prelude.{◌≡◌, ◌≤◌, unsigned_abs};
ghost use Rattle.tape_spans.specs.Gap.{gap_between, relation_of, step_between};

use crate::span::Mark;
use tc_address::{Direction, day_labels, number, shortest};

/// How the labels at the two ends of a gap are related.
#[derive(Clone, Copy)]
pub enum Relation {
    /// They have different counts.
    Count,
    /// The tape runs the other way behind the gap.
    Turn,
    /// How many labels lie from the one to the other, as the tape runs: 1 is the next label, and a
    /// negative number leads back. Half a day is taken towards higher labels.
    Step(i32),
}

/// What lies between two spans.
#[derive(Clone, Copy)]
pub struct Gap {
    /// From the end of the last word to the end of the next one.
    pub ticks: u64,
    pub relation: Relation,
}

/// How many labels lie from one mark to another of the same count, as the tape runs at the other.
#[tactic(auto, using(crate::proofs::EvenDays::day_length_even))]
fn step_between(last: &Mark, next: &Mark) -> i32
    requires { last.now.label.count ≡ next.now.label.count }
    ensures { result ≡ step_between last.now next.now }
{
    let day = day_labels(last.label.count());
    let way = shortest(day, number(&last.label), number(&next.label));
    match next.direction {
        Direction::Forward => way,
        Direction::Backward => -way,
    }
}

/// How the labels of two marks are related.
fn relation_of(last: &Mark, next: &Mark) -> Relation
    ensures { result ≡ relation_of last.now next.now }
{
    if last.label.count() != next.label.count() {
        Relation::Count
    } else if last.direction != next.direction {
        Relation::Turn
    } else {
        Relation::Step(step_between(last, next))
    }
}

/// What lies between the last mark of a span and the first of the next.
pub fn gap_between(last: &Mark, next: &Mark) -> Gap
    ensures value { result ≡ gap_between last.now next.now }
    ensures ticks { result.ticks ≤ next.now.tick }
{
    Gap {
        ticks: next.tick.saturating_sub(last.tick),
        relation: relation_of(last, next),
    }
}
