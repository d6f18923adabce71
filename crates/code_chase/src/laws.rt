//! What follows from the tables of frames, chase and transport alone.
ghost use Rattle.std.specs.Prelude.{◌≡◌, ℕ, suc, ◌-◌, ◌≤◌, List, [], ◌∷◌, ◌++◌, length, slice_get, Some, None};
ghost use Rattle.std.specs.Prelude.{unsigned_abs};
ghost use Rattle.chase_core.specs.declared.report.State.TheVariants as states;
ghost use Rattle.chase_core.specs.declared.report.Loss.{Loss};
ghost use Rattle.chase_core.specs.declared.report.Loss.TheVariants as losses;
ghost use Rattle.chase_core.specs.Trace.{Traced, lock_bound};
ghost use Rattle.flywheel.specs.declared.frame.Frame.{Frame};
ghost use Rattle.flywheel.specs.GoOn.{GoOn};
ghost use Rattle.tc_address.specs.Label.{Address, IsLabel};
ghost use Rattle.code_chase.specs.CodeTrace.{after_frames, begun_at, code_trace, next_line};
ghost use Rattle.code_chase.specs.Lock.{AreWhole, BringsNoCode, HasCauseOfLoss, HaveLabels};

use chase_core::laws::{
    a_locked_chase_stays_locked, a_slip_of_less_than_the_window_costs_no_lock,
    a_trace_has_a_line_for_each_row,
};
use tc_address::laws::{a_step_moves_the_number, number_and_label_are_inverse};

/// A trace has a line for each frame, and a frame more adds one at the end, that of the chase behind the
/// frames before.
pub fn a_frame_adds_a_line()
    ensures lines { (label : Address) (seed bound : ℕ) (frames : List Frame)
        → length (code_trace label seed bound frames) ≡ length frames }
    ensures none { (label : Address) (seed bound : ℕ) → code_trace label seed bound [] ≡ [] }
    ensures line { (label : Address) (seed bound : ℕ) (frames : List Frame) (frame : Frame)
        → code_trace label seed bound (frames ++ frame ∷ [])
        ≡ code_trace label seed bound frames ++ next_line (after_frames (begun_at label seed bound) frames) frame ∷ [] }
{}

/// Each loss has its cause, by its kind: no code exactly if the frame is gone or has another count; and out
/// of the window only if the frame was heard and does not join the one before it, or if the transport
/// slipped by 25 subframes or more in the step before.
pub fn each_loss_has_a_cause()
    ensures cause { (label : Address) (seed bound : ℕ) (frames : List Frame) (j : ℕ) (line : Traced) (loss : Loss)
        → IsLabel label → HaveLabels frames → GoOn None frames
        → slice_get (code_trace label seed bound frames) j ≡ Some line → line.report.loss ≡ Some loss
        → HasCauseOfLoss label seed bound frames j loss }
    ensures no_code { (label : Address) (seed bound : ℕ) (frames : List Frame) (i : ℕ) (leaves line : Traced)
        (frame : Frame)
        → slice_get (code_trace label seed bound frames) i ≡ Some leaves → leaves.report.state ≡ states.Locked
        → slice_get frames (suc i) ≡ Some frame → BringsNoCode label.count frame
        → slice_get (code_trace label seed bound frames) (suc i) ≡ Some line → line.report.loss ≡ Some losses.NoCode }
{
    a_locked_chase_stays_locked();
    a_slip_of_less_than_the_window_costs_no_lock();
    a_trace_has_a_line_for_each_row();
    a_step_moves_the_number();
    number_and_label_are_inverse();
}

/// If every frame behind the first is invented or joined and has the chase's count, and the transport
/// slips by at most 24 subframes, no step has a loss, and from the first step that ends Locked on each
/// error is at most half a frame. If it keeps its bound of eight subframes, the error is at most 40
/// subframes in the first of these steps, 24 in the next, and 8 in each later one.
pub fn whole_code_keeps_the_lock()
    ensures no_loss { (label : Address) (seed bound : ℕ) (frames : List Frame) (j : ℕ) (line : Traced)
        → IsLabel label → HaveLabels frames → GoOn None frames → AreWhole label.count frames → bound ≤ 24
        → slice_get (code_trace label seed bound frames) j ≡ Some line → line.report.loss ≡ None }
    ensures near { (label : Address) (seed bound : ℕ) (frames : List Frame) (first j : ℕ) (leaves line : Traced)
        → IsLabel label → HaveLabels frames → GoOn None frames → AreWhole label.count frames → bound ≤ 24
        → slice_get (code_trace label seed bound frames) first ≡ Some leaves → leaves.report.state ≡ states.Locked
        → first ≤ j → slice_get (code_trace label seed bound frames) j ≡ Some line
        → (line.report.state ≡ states.Locked) × (unsigned_abs line.report.error ≤ 40) }
    ensures nearer { (label : Address) (seed bound : ℕ) (frames : List Frame) (first j : ℕ) (leaves line : Traced)
        → IsLabel label → HaveLabels frames → GoOn None frames → AreWhole label.count frames → bound ≤ 8
        → slice_get (code_trace label seed bound frames) first ≡ Some leaves → leaves.report.state ≡ states.Locked
        → first ≤ j → slice_get (code_trace label seed bound frames) j ≡ Some line
        → unsigned_abs line.report.error ≤ lock_bound (j - first) }
{
    a_locked_chase_stays_locked();
    a_slip_of_less_than_the_window_costs_no_lock();
    a_trace_has_a_line_for_each_row();
    a_step_moves_the_number();
    number_and_label_are_inverse();
}
