//! A frame address in numbers. Read next: `word_exports`.
ghost use Rattle.std.specs.Prelude.{◌≡◌, ◌↔◌, IsTrue, Some, IfSome};
ghost use Rattle.tc_address.specs.declared.count.Count.{Count};
ghost use Rattle.tc_address.specs.Label.{Address, IsLabel};
ghost use Rattle.tc_c.specs.CEvent.{count_number};
ghost use Rattle.tc_c.specs.CLabel.{c_label, c_no_label, MeansLabel};

use crate::event::count_number;
use tc_address::{Count, Label};

/// A frame address in numbers. Those of no label mean nothing.
#[repr(C)]
#[derive(Clone, Copy)]
pub struct TcLabel {
    /// Its count: 0 for 24, 1 for 25, 2 for 30, 3 for 30 drop-frame.
    pub count: u32,
    pub hours: u32,
    pub minutes: u32,
    pub seconds: u32,
    pub frames: u32,
}

impl TcLabel {
    /// The label that they mean, where they mean one.
    pub(crate) fn meaning(&self) -> Option<Label>
        ensures means { IfSome result (MeansLabel self.now) }
        ensures only { (a : Address) → MeansLabel self.now a → result ≡ Some a }
    {
        let count = count_of(self.count)?;
        Label::new(count, self.hours, self.minutes, self.seconds, self.frames).ok()
    }

    /// Tells whether they are those that stand where there is no label.
    pub(crate) fn is_none(&self) -> bool
        ensures { IsTrue result ↔ self.now ≡ c_no_label }
    {
        self.count == 0
            && self.hours == 0
            && self.minutes == 0
            && self.seconds == 0
            && self.frames == 0
    }

    /// The numbers of a label.
    pub(crate) fn numbers_of(label: &Label) -> TcLabel
        ensures means { MeansLabel result label.now }
        ensures is { result ≡ c_label label.now }
    {
        TcLabel {
            count: u32::from(count_number(label.count())),
            hours: label.hours(),
            minutes: label.minutes(),
            seconds: label.seconds(),
            frames: label.frames(),
        }
    }
}

/// The numbers that stand where there is no label.
pub(crate) fn no_label() -> TcLabel
    ensures { result ≡ c_no_label }
{
    TcLabel {
        count: 0,
        hours: 0,
        minutes: 0,
        seconds: 0,
        frames: 0,
    }
}

/// The count of a number, where there is one.
pub(crate) fn count_of(number: u32) -> Option<Count>
    ensures means { IfSome result (λ c. count_number c ≡ number) }
    ensures only { (c : Count) → count_number c ≡ number → result ≡ Some c }
{
    match number {
        0 => Some(Count::C24),
        1 => Some(Count::C25),
        2 => Some(Count::C30),
        3 => Some(Count::Drop30),
        _ => None,
    }
}
