use std::error::Error;
use std::fmt;

/// Why not all could be written: the writer failed.
#[derive(Clone, Copy, Debug)]
pub struct WriteFault {
    /// How many bytes the writer took before its fault.
    pub written: u64,
}

impl fmt::Display for WriteFault {
    ghost use Rattle.std.specs.Prelude.{Some, codes, decimal, ◌++◌};

    ghost output = { λ e. Some (codes "write failed after " ++ decimal e.written) };

    fn fmt<W: fmt::Write>(&self, f: &mut fmt::Formatter<W>) -> fmt::Result {
        let written = self.written;
        write!(f, "write failed after {written}")
    }
}

impl Error for WriteFault {}
