//! What follows from the definition of spans alone.
ghost use Rattle.std.specs.Prelude.{◌≡◌, ℕ, List, ◌++◌, All, None};
ghost use Rattle.std.specs.List.{count_by, flat_map, sum_by};
ghost use Rattle.tc_address.specs.declared.system.System.{System};
ghost use Rattle.flywheel.specs.declared.frame.Frame.{Frame};
ghost use Rattle.flywheel.specs.GoOn.{GoOn};
ghost use Rattle.tape_spans.specs.InOrder.{DoNotFall, heard_ticks, span_ticks};
ghost use Rattle.tape_spans.specs.Shared.{frames_in, present, HoldsTogether};
ghost use Rattle.tape_spans.specs.Spans.{frames_of_spans, spans};
ghost use Rattle.tape_spans.specs.SpanTexts.{final_lines, lines_behind, open_line};
ghost use Rattle.tape_spans.specs.Stepped.{EndsStepped};
ghost use Rattle.flywheel.specs.Kinds.{is_heard};

use tc_address::laws::steps_add_up;

/// If each frame that goes on follows the one before it, as the frames of a flywheel do: each frame that
/// was heard or invented is in exactly one span, in order. Each span begins with a frame that does not
/// join, and behind it each goes on from the one before, so no two neighbours could be one. The spans count
/// each frame that was heard.
pub fn spans_share_the_frames_out()
    ensures all { (frames : List Frame) → GoOn None frames
        → present frames ≡ flat_map frames_in (frames_of_spans frames) }
    ensures within { (frames : List Frame) → GoOn None frames → All HoldsTogether (frames_of_spans frames) }
    ensures heard { (frames : List Frame) → GoOn None frames
        → sum_by (λ span. span.heard) (spans frames) ≡ count_by is_heard frames }
{}

/// The last label of a span is stepped from the first one by as many frames as were heard and bridged behind it.
pub fn a_span_ends_stepped()
    ensures { (frames : List Frame) → GoOn None frames → All EndsStepped (spans frames) }
{
    steps_add_up();
    spans_share_the_frames_out();
}

/// If the ticks of the frames that are heard do not fall, those of the spans do not: each span ends where it began
/// or later, and begins where the one before it ended or later. So the ticks of a gap are those between the two.
pub fn spans_come_in_order()
    ensures { (first last : ℕ) (frames : List Frame) → DoNotFall first (heard_ticks frames) last
        → DoNotFall first (span_ticks (spans frames)) last }
{}

/// The lines that are final come first, whatever frames follow.
pub fn final_lines_come_first()
    ensures { (tick_rate : ℕ) (system : System) (frames more : List Frame)
        → (rest : List ℕ)
        × (final_lines tick_rate system (frames ++ more) ≡ final_lines tick_rate system frames ++ rest) }
{}

/// At the end of a recording the open span, if one is, has the last line of all spans.
pub fn the_open_span_has_the_last_line()
    ensures { (tick_rate : ℕ) (system : System) (frames : List Frame)
        → final_lines tick_rate system frames ++ open_line tick_rate system frames
        ≡ lines_behind tick_rate system None (spans frames) }
{}
