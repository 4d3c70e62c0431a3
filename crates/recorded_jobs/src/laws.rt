//! Laws of jobs.

ghost use Rattle.recorded_jobs.specs.JobLaws.{WorkIsKept};

/// The jobs of a task work as long as it was on CPUs: none of its time is lost or counted twice.
pub fn work_is_kept()
    ensures law { WorkIsKept }
{}
