//! Why a pull or a push gave nothing. Read next: `memory_source`.

/// A pull or a push failed by a fault of the source or the sink, which counts it.
#[derive(Clone, Copy)]
pub struct Failed;
