//! The spans of a tape: which labels are on it, where it is cut, and which parts run backward.
//!
//! A span begins with a frame that was heard and does not join the one before it. It goes on with frames
//! that join and frames that a flywheel invented, and ends before the time code is gone, before a heard
//! frame that does not join, or with the recording. A span has what was heard: its first and its
//! last frame, how many frames were heard, and how many were invented between two of them. Between two
//! spans lies a gap: its ticks, and how the labels on both sides are related. The rule is this
//! project's own.
//!
//! What this crate promises:
//! - A `TapeSpans` that is given a list of frames, one after another, gives each span when it ends and
//!   each gap when the next span begins, and keeps none of the frames (`specs/Spans.antt`, `spans`;
//!   `specs/Gap.antt`; `specs/StandsFor.antt`).
//! - The lines that it makes so are those of the frames so far that are final, whatever frames follow
//!   (`specs/SpanTexts.antt`, `final_lines`); with that of the open span, they are the lines of all spans
//!   (`laws::the_open_span_has_the_last_line`).
//! - Each frame of a flywheel that was heard or invented is in exactly one span, in order; within a
//!   span each goes on from the one before it, and none begins with a frame that joins, so no two
//!   neighbours could be one (`laws::spans_share_the_frames_out`). So the last label of a span is its first
//!   one, stepped by the frames between them (`laws::a_span_ends_stepped`).
//!
//! Read `span`, `gap`, `place`, `tape` and `texts`, in this order, with the files of the same names in specs/
//! beside them. Nothing here allocates or fails.
#![tactic(auto)]

mod gap;
pub mod laws;
mod place;
mod span;
mod tape;
mod texts;

pub use gap::{Gap, Relation, gap_between};
pub use place::{Cut, OpenSpan, TapePlace};
pub use span::{Mark, Span};
pub use tape::TapeSpans;
pub use texts::{SpanText, gap_text, span_text, spans_end_text};
