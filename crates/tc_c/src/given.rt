//! What a call gave, that is told one thing. Read next: `wheel_kept`.
ghost use Rattle.std.specs.Prelude.{◌≡◌, true, false};

/// What a call gave, that is told one thing.
#[repr(C)]
#[derive(Clone, Copy)]
pub struct TcGiven {
    /// So many elements were written, from the front.
    pub made: usize,
    /// Whether it is done with what it was told.
    pub done: bool,
    /// Whether that is refused, and nothing changed.
    pub refused: bool,
}

/// What is answered where it is refused.
pub(crate) fn refused() -> TcGiven
    ensures { result ≡ record { made = 0; done = false; refused = true } }
{
    TcGiven {
        made: 0,
        done: false,
        refused: true,
    }
}
