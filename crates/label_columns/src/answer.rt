//! What is answered to a column. Read next: `laws`.
ghost use Rattle.std.specs.Prelude.{◌≡◌, ◌≤◌, option_map, IfSome, length};
ghost use Rattle.label_columns.specs.Columns.{answer_to};
ghost use Rattle.label_lines.specs.Timebase.{count_of};
ghost use Rattle.label_lines.specs.Way.{IsWayOf};

use label_lines::{Timebase, Way, answer_line};
use line_text::Text;
use tc_address::read_text;

/// What is answered to a column that is the text of a label of the count.
#[tactic(auto, unfolding(crate::specs::Columns::answer_to))]
pub fn answer_column(base: Timebase, way: &Way, column: &[u8]) -> Option<Text>
    requires way { IsWayOf (count_of base) way.now }
    ensures { option_map (λ text. text.items) result ≡ answer_to base way.now column.now }
{
    match read_text(column, base.count()) {
        Ok(label) => {
            let mut answer = answer_line(base, way, &label);
            answer.pop();
            Some(answer)
        }
        Err(_) => None,
    }
}
