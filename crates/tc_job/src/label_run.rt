//! What the words of `labels` say: how labels are counted and how fast they run, and what is answered to each.
ghost use Rattle.std.specs.Prelude.{◌≡◌};
ghost use Rattle.label_lines.specs.Timebase.{count_of};
ghost use Rattle.label_lines.specs.Way.{IsWayOf};
ghost use Rattle.tc_job.specs.LabelRun.{label_run_of};

use label_lines::{Timebase, Way};
use std::marker::Model;

/// Labels of a count, and what is answered to each of them.
#[derive(Clone, Copy)]
pub struct LabelRun {
    base: Timebase,
    way: Way,
}

impl Model for LabelRun {
    ghost use Rattle.label_lines.specs.Timebase.{count_of};
    ghost use Rattle.label_lines.specs.Way.{IsWayOf};
    ghost use Rattle.tc_job.specs.LabelRun.{LabelRunning};

    ghost Value = { LabelRunning };

    ghost view = { λ r. record { base = r.base; way = r.way } };

    ghost invariant = { λ r. IsWayOf (count_of r.base) r.way };

    ghost inverse = { λ r. record { base = r.base; way = r.way } };
}

impl LabelRun {
    /// This is answered to labels of this count. If ways from a label are asked for, that one is of the count too.
    pub fn new(base: Timebase, way: Way) -> LabelRun
        requires { IsWayOf (count_of base) way }
        ensures { result ≡ label_run_of base way }
    {
        LabelRun { base, way }
    }

    /// How the labels are counted, and how fast they run.
    pub fn base(&self) -> Timebase
        ensures { result ≡ self.now.base }
    {
        self.base
    }

    /// What is answered to each.
    pub fn way(&self) -> Way
        ensures value { result ≡ self.now.way }
        ensures valid { IsWayOf (count_of self.now.base) self.now.way }
    {
        self.way
    }
}
