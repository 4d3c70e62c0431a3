//! What a state has of its machine: the number of its CPUs, which stays, and the limit of its
//! bandwidth, which a call may change.

ghost use Rattle.std.specs.Prelude.{◌≡◌, ◌<◌, ◌≤◌};
ghost use Rattle.domain_run.specs.Domain.{IsLimit};

use super::State;

impl State {
    /// The number of CPUs with which the domain was opened, 1 to 64.
    pub fn cpus(&self) -> u32
        ensures cpus { result ≡ self.now.cpus }
        ensures within { (0 < result) × (result ≤ 64) }
    {
        self.cpus as u32
    }

    /// The limit that the domain now has: the bandwidth of each CPU that it may give away, 10485 to
    /// 1048576 in 1/2^20. It is the one of the opening, or the last that was set.
    pub fn limit(&self) -> u64
        ensures limit { result ≡ self.now.limit }
        ensures within { IsLimit result }
    {
        self.limit
    }
}
