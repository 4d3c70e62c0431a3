//! Laws of the script of jobs.

ghost use Rattle.recorded_scripts.specs.ScriptLaws.{WorkIsWritten, ReleasesAreReached};

/// A script works as long as the jobs that it was written for, if all of them have ends.
pub fn work_is_written()
    ensures law { WorkIsWritten }
{}

/// The times of its timers lead from one release to the next: before the work of a job they add up
/// to the job's release.
pub fn releases_are_reached()
    ensures law { ReleasesAreReached }
{}
