//! The lines of a trace, one after another. Read next: `texts`.
ghost use Rattle.std.specs.Prelude.{◌≡◌, ◌<◌, ◌++◌, [], IfSome, None, length, false, cond};
ghost use Rattle.chase_script.specs.Answer.{AreRowsFor};
ghost use Rattle.chase_script.specs.Kept.{first_line, text_left, lines_left};
ghost use Rattle.chase_script.specs.Lock.{KeepsItsLock};
ghost use Rattle.chase_core.specs.Trace.{after_row, traced};
ghost use Rattle.chase_script.specs.Script.{IsRowFor};
ghost use Rattle.chase_script.specs.TraceText.{row_of, trace_from, trace_text};
ghost use Rattle.std.specs.Prelude.{is_some};
ghost use Rattle.transport_model.specs.Move.{day_of};

use crate::row::ScriptRow;
use crate::script::Script;
use crate::texts::{step_end_text, step_text};
use chase_core::laws::{
    a_locked_chase_stays_locked, a_trace_has_a_line_for_each_row, pulling_ends,
};
use chase_core::{ClosedLoop, Loss, StepReport};
use line_text::Text;
use std::marker::Model;
use tc_address::{Count, Label};

/// A trace, of which some lines are still to be given.
#[derive(Drop)]
pub struct TraceLines {
    rows: Script,
    at: usize,
    count: Count,
    place: ClosedLoop,
    losses: u64,
    is_ended: bool,
}

impl Model for TraceLines {
    ghost use Rattle.std.specs.Prelude.{◌≡◌, ◌≤◌, drop, length, true};
    ghost use Rattle.chase_script.specs.Answer.{AreRowsFor};
    ghost use Rattle.chase_script.specs.Kept.{TraceLeft};

    ghost Value = { TraceLeft };

    ghost view = { λ s. record {
      place = s.place;
      rows = drop s.at s.rows.items;
      steps = s.at;
      losses = s.losses;
      is_ended = s.is_ended;
    } };

    ghost invariant = { λ s. (s.at ≤ length s.rows.items) × (s.losses ≤ s.at) × (s.place.chase.count ≡ s.count)
        × AreRowsFor s.count (drop s.at s.rows.items) × (s.is_ended ≡ true → length s.rows.items ≤ s.at) };
}

impl TraceLines {
    /// The trace of a script whose chase begins at a label.
    pub fn new(label: &Label, rows: Script) -> TraceLines
        requires { AreRowsFor label.now.count rows.items }
        ensures text { text_left result ≡ trace_text label.now.count (trace_from label.now rows.items) }
        ensures lock { KeepsItsLock label.now rows.items }
    {
        a_trace_has_a_line_for_each_row();
        a_locked_chase_stays_locked();
        pulling_ends();
        TraceLines {
            rows,
            at: 0,
            count: label.count(),
            place: ClosedLoop::new(label),
            losses: 0,
            is_ended: false,
        }
    }

    /// The next line, if there is one. A row is worked when its line is fetched.
    #[inline(always)]
    pub fn next_line(&mut self) -> Option<Text>
        ensures one { IfSome result (λ line. line.items ≡ first_line self.old) }
        ensures line { IfSome result (λ line. text_left self.old ≡ line.items ++ text_left self.new) }
        ensures fewer { IfSome result (λ line. lines_left self.new < lines_left self.old) }
        ensures all { result ≡ None → text_left self.old ≡ [] }
        ensures idle { result ≡ None → self.new ≡ self.old }
    {
        if self.at < self.rows.len() {
            return Some(self.step_line());
        }
        if self.is_ended {
            return None;
        }
        self.is_ended = true;
        Some(step_end_text(self.at as u64, self.losses))
    }

    /// The line of the next row.
    #[inline(always)]
    fn step_line(&mut self) -> Text
        requires some { 0 < length self.old.rows }
        requires going { self.old.is_ended ≡ false }
        ensures one { result.items ≡ first_line self.old }
        ensures line { text_left self.old ≡ result.items ++ text_left self.new }
        ensures fewer { lines_left self.new < lines_left self.old }
    {
        let row = self.rows[self.at];
        let (report, position) = worked(&mut self.place, &row);
        self.losses += lost(report.loss);
        self.at += 1;
        step_text(self.at as u64, &report, self.count, position)
    }
}

/// Works a row: what the chase says, and where the transport is after it.
fn worked(place: &mut ClosedLoop, row: &ScriptRow) -> (StepReport, u32)
    requires { IsRowFor place.old.chase.count row.now }
    ensures report { result.0 ≡ (traced place.old (row_of row.now)).report }
    ensures position { result.1 ≡ (traced place.old (row_of row.now)).position }
    ensures after { place.new ≡ after_row place.old (row_of row.now) }
    ensures day { result.1 < day_of place.old.chase.count }
{
    let report = place.work(row.command, row.master, row.slip);
    (report, place.position())
}

/// How many times the lock was lost in a step.
fn lost(loss: Option<Loss>) -> u64
    ensures { result ≡ cond (is_some loss) 1 0 }
{
    match loss {
        Some(_) => 1,
        None => 0,
    }
}
