use std::error::Error;
use std::fmt;

/// Why not all could be read.
#[derive(Clone, Copy, Debug)]
pub enum ReadFault {
    /// A read failed, or 2^32 reads met no end.
    Failed,
    /// A growth was refused.
    Memory,
}

impl fmt::Display for ReadFault {
    ghost use Rattle.std.specs.Prelude.{Some};
    ghost use Rattle.counted_io.specs.Faults.{read_fault_text};

    ghost output = { λ e. Some (read_fault_text e) };

    fn fmt<W: fmt::Write>(&self, f: &mut fmt::Formatter<W>) -> fmt::Result {
        f.write_str(match self {
            ReadFault::Failed => "read failed",
            ReadFault::Memory => "out of memory",
        })
    }
}

impl Error for ReadFault {}
