ghost use Rattle.deadline_promise.specs.Promise.{IsNeverCrowded, AlwaysHasRoom, IsNeverLate};
ghost use Rattle.deadline_promise.specs.Answer.{IsPromiseKept};

/// It does nothing; its contract is the theorem, which says of the definitions: if tasks are
/// admitted to a domain of one CPU before its first tick, none of them reclaiming, each with its
/// deadline at the end of its period, and with room for the rounding of their bandwidths, then
/// after any number of ticks what the tasks may take until a time is no more than the CPU gives
/// until then. So what all ready tasks that are due by a time have left fits before it, and each
/// job of a task whose script keeps its budget is in time: `late` in its figures is 0. An answer
/// [`Promise::NeverLate`] of [`promise_to`] is kept so.
///
/// [`Promise::NeverLate`]: crate::Promise::NeverLate
/// [`promise_to`]: crate::promise_to
pub fn budgets_isolate()
    ensures uncrowded { IsNeverCrowded }
    ensures room { AlwaysHasRoom }
    ensures never_late { IsNeverLate }
    ensures kept { IsPromiseKept }
{}
