//! What is answered to a line. Read next: `answer`.
ghost use Rattle.std.specs.Prelude.{◌↔◌, IsTrue};
ghost use Rattle.label_lines.specs.Way.{IsWayOf};

use crate::timebase::Timebase;
use tc_address::{Count, Label};

/// What is answered of the label that a line says.
#[derive(Clone, Copy)]
pub enum Way {
    /// Its number in the day.
    Number,
    /// Its text.
    Label,
    /// The label this number of labels later, around the day.
    Plus(u32),
    /// The label this number of labels earlier, around the day.
    Minus(u32),
    /// The shortest way to it from this label, with its sign, and how far it lies ahead of this label.
    Since(Label),
    /// The length from this label to it, around the day: as a label, and in frames.
    Length(Label),
    /// The seconds since midnight at which its frame begins, with three decimals.
    Seconds,
    /// The label that is shown when its frame begins, and the thousandths of that one's frame that have passed.
    To(Timebase),
}

impl Way {
    /// Whether the label from which ways are counted, if there is one, is of the count.
    pub fn is_of(&self, count: Count) -> bool
        ensures { IsTrue result ↔ IsWayOf count self.now }
    {
        match self {
            Way::Since(label) => label.count() == count,
            Way::Length(label) => label.count() == count,
            _ => true,
        }
    }
}
