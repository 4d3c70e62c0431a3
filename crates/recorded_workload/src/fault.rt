//! Why a recording has no workload.

use no_memory::NoMemory;
use std::alloc::{AllocError, AllocFailed};

/// Why a recording has no workload. Tasks have the numbers from 0 on.
#[derive(Clone, Copy, Debug)]
pub enum WorkloadFault {
    /// No task has a job.
    NoTask,
    /// A task has more than 2048 jobs.
    ManyJobs { task: usize, jobs: usize },
    /// A task works or sleeps longer than 10^9 us, or starts so long after the first.
    LongSleep { task: usize },
    /// The tasks ran on more than 64 CPUs.
    ManyCpus { cpus: usize },
    /// From the first release to the last moment there are more than 3,900,000,000,000 us.
    LongRecording,
    /// A growth was refused. It may come before any other fault.
    Memory,
}

impl From<AllocError> for WorkloadFault {
    ghost use Rattle.std.specs.Prelude.{◌≡◌};
    ghost use Rattle.recorded_workload.specs.declared.fault.WorkloadFault.TheVariants.{Memory};

    ghost from_gives = { λ _ e. e ≡ Memory };

    fn from(_e: AllocError) -> WorkloadFault {
        WorkloadFault::Memory
    }
}

impl From<NoMemory> for WorkloadFault {
    ghost use Rattle.std.specs.Prelude.{◌≡◌};
    ghost use Rattle.recorded_workload.specs.declared.fault.WorkloadFault.TheVariants.{Memory};

    ghost from_gives = { λ _ e. e ≡ Memory };

    fn from(_e: NoMemory) -> WorkloadFault {
        WorkloadFault::Memory
    }
}

impl<T: Drop> From<AllocFailed<T>> for WorkloadFault {
    ghost use Rattle.std.specs.Prelude.{◌≡◌};
    ghost use Rattle.recorded_workload.specs.declared.fault.WorkloadFault.TheVariants.{Memory};

    ghost from_gives = { λ _ e. e ≡ Memory };

    fn from(_e: AllocFailed<T>) -> WorkloadFault {
        WorkloadFault::Memory
    }
}
