//! A law of workloads.

ghost use Rattle.recorded_workload.specs.WorkloadLaws.{DelaysReach};

/// Time 0 and the delay of a task lead to the release of its first job.
pub fn delays_reach()
    ensures law { DelaysReach }
{}
