//! Where a tape is: before its first span, within one, or behind one. Read next: `span`.
ghost use Rattle.std.specs.Prelude.{◌≡◌, ◌+◌, ◌<◌, ◌≤◌, ◌^◌};
ghost use Rattle.tape_spans.specs.Tape.{begun_at, ended_at, gap_at, joined_by, with_invented, IsOpen, IsTapePlace};

use crate::gap::{Gap, gap_between};
use crate::span::{Mark, Span};

/// A span that may go on.
#[derive(Clone, Copy)]
pub struct OpenSpan {
    /// The span up to the frame heard last.
    pub span: Span,
    /// How many frames were invented in it, those behind the frame heard last too.
    pub invented: u64,
}

/// Where the frames of a tape are.
#[derive(Clone, Copy)]
pub enum TapePlace {
    /// No span has begun.
    Before,
    /// A span is open.
    Within(OpenSpan),
    /// The latest span ended at this mark.
    Behind(Mark),
}

/// What a frame completes: the span that ends before it, and the gap before a span that begins with it.
#[derive(Clone, Copy)]
pub struct Cut {
    pub ended: Option<Span>,
    pub gap: Option<Gap>,
}

impl OpenSpan {
    /// A span that begins with a frame.
    pub(crate) fn begin(mark: Mark) -> OpenSpan
        ensures { result ≡ begun_at mark }
    {
        let last = mark;
        OpenSpan {
            span: Span {
                first: mark,
                last,
                heard: 1,
                bridged: 0,
            },
            invented: 0,
        }
    }

    /// The span with a further frame that was heard: what was invented before it is bridged.
    pub(crate) fn join(&self, mark: Mark) -> OpenSpan
        requires { self.now.span.heard < 2 ^ 40 }
        ensures { result ≡ joined_by self.now mark }
    {
        OpenSpan {
            span: Span {
                first: self.span.first,
                last: mark,
                heard: self.span.heard + 1,
                bridged: self.invented,
            },
            invented: self.invented,
        }
    }

    /// The span with a further frame that was invented.
    pub(crate) fn invent(&self) -> OpenSpan
        requires { self.now.invented < 2 ^ 40 }
        ensures { result ≡ with_invented self.now }
    {
        OpenSpan {
            span: self.span,
            invented: self.invented + 1,
        }
    }
}

impl TapePlace {
    /// The span that is open.
    pub(crate) fn ended(&self) -> Option<Span>
        ensures { result ≡ ended_at self.now }
    {
        match self {
            TapePlace::Before => None,
            TapePlace::Within(current) => Some(current.span),
            TapePlace::Behind(_) => None,
        }
    }

    /// The gap between the frame heard last and the next one, if one was heard.
    pub(crate) fn gap_to(&self, next: &Mark) -> Option<Gap>
        ensures { result ≡ gap_at self.now next.now }
    {
        match self {
            TapePlace::Before => None,
            TapePlace::Within(current) => Some(gap_between(&current.span.last, next)),
            TapePlace::Behind(last) => Some(gap_between(last, next)),
        }
    }
}
