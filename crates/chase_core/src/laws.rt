//! What follows from the tables of chase and transport alone: the closed loop keeps its lock.
ghost use Rattle.std.specs.Prelude.{◌≡◌, ℕ, suc, ◌+◌, ◌-◌, ◌*◌, ◌≤◌, List, length, slice_get, Some, None, unsigned_abs};
ghost use Rattle.chase_core.specs.declared.command.Master.{Master};
ghost use Rattle.chase_core.specs.declared.mode.Mode.TheVariants as modes;
ghost use Rattle.chase_core.specs.declared.report.State.TheVariants as states;
ghost use Rattle.chase_core.specs.NextRow.{ReadsOn};
ghost use Rattle.chase_core.specs.Step.{after_command, error_to};
ghost use Rattle.chase_core.specs.Trace.{Loop, Row, Traced, IsOnTheDay, AreRowsOf, IsSteadyFromTo, traced, trace};
ghost use Rattle.chase_core.specs.Trace.{loop_at, lock_bound};

/// A trace has a line for each row, that of the loop in which the row is worked.
pub fn a_trace_has_a_line_for_each_row()
    ensures lines { (loop : Loop) (rows : List Row) → length (trace loop rows) ≡ length rows }
    ensures line { (loop : Loop) (rows : List Row) (i : ℕ) (row : Row) → slice_get rows i ≡ Some row
        → slice_get (trace loop rows) i ≡ Some (traced (loop_at loop rows i) row) }
{}

/// While the master moves steadily, no command comes and the transport keeps its slip bound, a chase
/// that a row leaves Locked is Locked after each row that follows, without a loss. Its error is at most
/// 40 subframes in the first of these rows, 24 in the next, and 8 in each later one. Half a frame is 40
/// subframes.
pub fn a_locked_chase_stays_locked()
    ensures { (loop : Loop) (rows : List Row) (first last i : ℕ) (leaves line : Traced)
        → IsOnTheDay loop → AreRowsOf loop.chase.count rows → IsSteadyFromTo loop.chase.count rows first last
        → slice_get (trace loop rows) first ≡ Some leaves → leaves.report.state ≡ states.Locked
        → first ≤ i → i ≤ last → slice_get (trace loop rows) i ≡ Some line
        → (line.report.state ≡ states.Locked) × (line.report.loss ≡ None)
        × (unsigned_abs line.report.error ≤ lock_bound (i - first)) }
{}

/// Under the same premises a chase that works a row Pulling, at most 40 + 1272·n subframes from its
/// master, loses nothing from that row on, is Locked n rows later, and stays so. No error is longer than
/// half a day, so 81,510 rows, less than an hour, always suffice.
pub fn pulling_ends()
    ensures locks { (loop : Loop) (rows : List Row) (row : Row) (master : Master) (first last n i : ℕ) (line : Traced)
        → IsOnTheDay loop → AreRowsOf loop.chase.count rows → IsSteadyFromTo loop.chase.count rows first last
        → slice_get rows first ≡ Some row → row.master ≡ Some master
        → after_command row.command (loop_at loop rows first).chase.mode ≡ modes.Pulling
        → unsigned_abs (error_to loop.chase.count (loop_at loop rows first).position master.number) ≤ 40 + 1_272 * n
        → first ≤ i → i ≤ last → slice_get (trace loop rows) i ≡ Some line
        → (line.report.loss ≡ None) × (n ≤ i - first → line.report.state ≡ states.Locked) }
    ensures always { (loop : Loop) (rows : List Row) (row : Row) (master : Master) (first last i : ℕ) (line : Traced)
        → IsOnTheDay loop → AreRowsOf loop.chase.count rows → IsSteadyFromTo loop.chase.count rows first last
        → slice_get rows first ≡ Some row → row.master ≡ Some master
        → after_command row.command (loop_at loop rows first).chase.mode ≡ modes.Pulling
        → first ≤ i → i ≤ last → slice_get (trace loop rows) i ≡ Some line
        → (line.report.loss ≡ None) × (81_510 ≤ i - first → line.report.state ≡ states.Locked) }
{}

/// A slip of up to 24 subframes costs no lock: if a row leaves the chase Locked, no command comes, the
/// master moves on and the transport slipped by at most 24 subframes, the next row is Locked too, without
/// a loss, and its error is at most the slip and 16 subframes.
pub fn a_slip_of_less_than_the_window_costs_no_lock()
    ensures { (loop : Loop) (rows : List Row) (i : ℕ) (row next : Row) (leaves line : Traced)
        → IsOnTheDay loop → AreRowsOf loop.chase.count rows
        → slice_get rows i ≡ Some row → slice_get rows (suc i) ≡ Some next → ReadsOn loop.chase.count row next
        → unsigned_abs row.slip ≤ 24 → slice_get (trace loop rows) i ≡ Some leaves → leaves.report.state ≡ states.Locked
        → slice_get (trace loop rows) (suc i) ≡ Some line
        → (line.report.state ≡ states.Locked) × (line.report.loss ≡ None)
        × (unsigned_abs line.report.error ≤ 16 + unsigned_abs row.slip) }
{}
