//! Faults of an import.

use std::alloc::AllocError;
use task_script::Name;

/// Which of the two texts.
#[derive(Clone, Copy, Debug, PartialEq, Eq)]
pub enum ImportInput {
    /// The tasks file, which is read first.
    Tasks,
    /// The recording.
    Recorded,
}

/// Why nothing, or not all, was written.
#[derive(Debug, Drop)]
pub enum ImportFault {
    /// The first bad line of a text, from 1.
    BadLine { input: ImportInput, line: u64 },
    /// No switch of the recording counts.
    NoSwitch,
    /// No task of the tasks file has a job.
    NoTask,
    /// The task of this name has more than 2048 jobs.
    ManyJobs { name: Name, jobs: usize },
    /// The task of this name works or sleeps longer than 10^9 us, or starts so long after the
    /// first.
    LongSleep { name: Name },
    /// The tasks ran on more than 64 CPUs.
    ManyCpus { cpus: usize },
    /// From the first release to the last moment there are more than 3,900,000,000,000 us.
    LongRecording,
    /// Reading of a text failed, or met no end.
    Read(ImportInput),
    /// Writing failed after so many bytes.
    Write { written: usize },
    /// A growth was refused. It may come before any bad line.
    Memory,
}

/// Why a text was not read.
#[derive(Clone, Copy)]
pub(crate) enum TextFault {
    /// Its first bad line, from 1.
    BadLine(u64),
    /// Reading failed, or met no end.
    Read,
    /// A growth was refused.
    Memory,
}

impl From<AllocError> for TextFault {
    ghost use Rattle.std.specs.Prelude.{◌≡◌};
    ghost use Rattle.recording_import.specs.declared.fault.TextFault.TheVariants.{Memory};

    ghost from_gives = { λ _ e. e ≡ Memory };

    fn from(_e: AllocError) -> TextFault {
        TextFault::Memory
    }
}
