ghost use Rattle.std.specs.Prelude.{◌≡◌, ◌≤◌, ◌^◌};

use std::marker::Model;

/// The accepted parameters of a task. Each value is ordered: 1 < runtime <= deadline <= period <=
/// 2^32 us, and `bw` is the ratio of runtime and period.
#[derive(Clone, Copy, Debug, PartialEq, Eq)]
pub struct Params {
    /// Runtime in each period, in microseconds.
    pub runtime: u64,
    /// Relative deadline, in microseconds.
    pub deadline: u64,
    /// Period, in microseconds.
    pub period: u64,
    /// Whether the task reclaims unused bandwidth (SCHED_FLAG_RECLAIM).
    pub reclaim: bool,
    /// Bandwidth, in 1/2^20 of one CPU.
    pub bw: u64,
}

impl Model for Params {
    ghost use Rattle.attr_check.specs.ParamsView.{ParamsView, IsOrdered};

    ghost Value = { ParamsView };

    ghost view = { λ p. record {
      runtime = p.runtime;
      deadline = p.deadline;
      period = p.period;
      reclaim = p.reclaim;
      bw = p.bw;
    } };

    ghost invariant = { λ p. IsOrdered
        (record {
          runtime = p.runtime;
          deadline = p.deadline;
          period = p.period;
          reclaim = p.reclaim;
          bw = p.bw;
        }) };

    ghost inverse = { λ p. record {
      runtime = p.runtime;
      deadline = p.deadline;
      period = p.period;
      reclaim = p.reclaim;
      bw = p.bw;
    } };
}

impl Params {
    /// The bandwidth, in 1/2^20 of one CPU: at most one whole CPU, since the runtime is at most the
    /// period.
    pub fn bandwidth(&self) -> u64
        ensures value { result ≡ self.now.bw }
        ensures most { result ≤ 2 ^ 20 }
    {
        self.bw
    }
}
