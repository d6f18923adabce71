//! Why a line says nothing.

use thiserror::Error;
use vitc_line::LineFault;

/// The first run of a line that can't be taken, counted from 0.
#[derive(Clone, Copy, Debug, Drop, Error)]
pub enum RunFault {
    /// This run is more than a quarter of a cell from each whole number of cells, or from one cell if
    /// it is shorter.
    #[error("this run is no whole number of cells")]
    Run(usize),
    /// With this run the line has more than 90 cells.
    #[error("with this run the line has more than 90 cells")]
    TooLong(usize),
}

/// Why a line gives no word.
#[derive(Clone, Copy, Debug, Drop, Error)]
pub enum ReadFault {
    /// The runs stand for no bits.
    #[error("the runs stand for no bits")]
    Runs(RunFault),
    /// The bits spell no word.
    #[error("the bits spell no word")]
    Line(LineFault),
}
