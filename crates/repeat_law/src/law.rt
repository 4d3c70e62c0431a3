//! The law of a run that repeats.

ghost use Rattle.repeat_law.specs.Marks.{FoundLaw, HasPeriodsLaw, MarkLaw};
ghost use Rattle.repeat_law.specs.Repeats.{AfterLaw, AfterLogsLaw, AlwaysLaw, CountLaw, CountSwitchesLaw, LastsLaw, RepeatsLaw, SwitchesLaw, LogsLaw};
ghost use Rattle.repeat_law.specs.Shift.{DelayLaw, ForeverLaw, ShiftKeepsLaw, ShiftLaw, ShiftLogsLaw};

/// It does nothing; its contract is the law, which says of the definitions:
///
/// - `delayed`: a domain whose times are all later by k does the same in n ticks, k later. This
///   needs no premise.
/// - `shifted`, `shifted_logs`: so does a shifted domain, and so does what happens to its tasks,
///   if at the beginning and the end of each of the n ticks rounds and work are left.
/// - `shifted_keeps`: the shifted domain keeps what every domain keeps, if its clock and the times
///   at which scripts are asked stay within their limits.
/// - `unlimited`: they are left for ever, if no task needs them: it rests, or plays by no rounds.
/// - `repeats`, `switches`, `has_logged`: if a domain repeats, and rounds and work last for m
/// periods,
///   then m periods leave what was there, shifted m times. Their switches, and what happens in
///   them, are those of the first period, given m times, each a period later.
/// - `after`, `after_logs`: n ticks after m periods do what the first n ticks did, shifted.
/// - `lasts`: the premise of these two holds for up to one period more, if rounds and work last for
///   m + 1 periods. `always`: and for any n, if no task needs rounds or work.
/// - `counts`, `counts_switches`: what is counted of a period, whenever it is, is m times as much
///   of m periods.
/// - `found`: a domain repeats if no task has left the list, each CPU has the same running task,
///   and the marks of all tasks are those of a period before, shifted.
/// - `marks`, `has_periods`: what [`pace_between`] and [`periods_left`] say of marks holds of the
///   tasks that they were taken of.
///
/// [`pace_between`]: crate::pace_between
/// [`periods_left`]: crate::periods_left
pub fn repeats_go_on()
    ensures delayed { DelayLaw }
    ensures shifted { ShiftLaw }
    ensures shifted_logs { ShiftLogsLaw }
    ensures shifted_keeps { ShiftKeepsLaw }
    ensures unlimited { ForeverLaw }
    ensures repeats { RepeatsLaw }
    ensures switches { SwitchesLaw }
    ensures has_logged { LogsLaw }
    ensures after { AfterLaw }
    ensures after_logs { AfterLogsLaw }
    ensures lasts { LastsLaw }
    ensures always { AlwaysLaw }
    ensures counts { CountLaw }
    ensures counts_switches { CountSwitchesLaw }
    ensures found { FoundLaw }
    ensures marks { MarkLaw }
    ensures has_periods { HasPeriodsLaw }
{}
