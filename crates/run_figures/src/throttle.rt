//! Throttling of a task.

ghost use Rattle.std.specs.Prelude.{◌≡◌, ◌+◌, ◌-◌, ◌*◌, ◌≤◌, ◌^◌};
ghost use Rattle.run_figures.specs.private.Logging as logging;

/// How often and how long a task was throttled so far.
#[derive(Clone, Copy)]
pub(crate) struct Throttle {
    pub(crate) times: u64,
    pub(crate) us: u128,
    /// Since when it is throttled, where it is.
    pub(crate) since: Option<u64>,
}

fn gap(since: Option<u64>, time: u64) -> u64
    ensures { result ≡ logging.gap since time }
{
    match since {
        None => 0,
        Some(since) => time.saturating_sub(since),
    }
}

/// The time so far, with that since it is throttled, up to a time.
pub(crate) fn us_up_to(throttle: &Throttle, time: u64) -> u128
    requires room { throttle.now.us ≤ (2 ^ 64 - 2) * 2 ^ 64 }
    ensures { result ≡ throttle.now.us + logging.gap throttle.now.since time }
{
    throttle.us + u128::from(gap(throttle.since, time))
}

/// It is throttled from this time on.
pub(crate) fn begin_throttle(throttle: &mut Throttle, time: u64)
    requires us { throttle.old.us ≤ (2 ^ 64 - 2) * 2 ^ 64 }
    requires times { throttle.old.times ≤ 2 ^ 64 - 2 }
    ensures { throttle.new ≡ logging.throttled_from time throttle.old }
{
    throttle.us = us_up_to(throttle, time);
    throttle.times += 1;
    throttle.since = Some(time);
}

/// It is not throttled from this time on.
pub(crate) fn end_throttle(throttle: &mut Throttle, time: u64)
    requires us { throttle.old.us ≤ (2 ^ 64 - 2) * 2 ^ 64 }
    ensures { throttle.new ≡ logging.freed_from time throttle.old }
{
    throttle.us = us_up_to(throttle, time);
    throttle.since = None;
}
