//! A call that is made, and its reply. The switches of an advance are forgotten while it is made.

ghost use Rattle.std.specs.Prelude.{◌≡◌, ◌<◌, ◌≤◌, ◌+◌};
ghost use Rattle.domain_run.specs.declared.call.Call.TheVariants as Call;
ghost use Rattle.domain_run.specs.Calls.{reply_to, after_call};
ghost use Rattle.domain_run.specs.Passing.{without_switches};
ghost use Rattle.domain_run.specs.Tick.{ticks as ticked_by};
ghost use Rattle.calls_text.specs.Limits.{IsCall};
ghost use Rattle.limits.specs.Limits.{clock_end, max_advance, max_script_number, task_number_end};

use attr_check::Params;
use calls_text::{Call, Reply};
use domain_run::{Name, Script};
use repeat_run::Repeating;

/// Admits a task.
fn admit(
    domain: &mut Repeating,
    number: u32,
    name: Name,
    params: Params,
    delay: u64,
    mut script: Script,
) -> Reply
    requires number { (0 < number) × (number < task_number_end) }
    requires delay { delay ≤ max_script_number }
    ensures reply { result
        ≡ reply_to domain.old (Call.Admit number name params delay script) }
    ensures domain { domain.new
        ≡ after_call domain.old (Call.Admit number name params delay script) }
{
    // If it is refused, its script never runs.
    if let Reply::Admitted = domain.state().admit_reply(number, &params) {
        script.lay_out();
    }
    match domain.admit(number, name, params, delay, script) {
        Ok(()) => Reply::Admitted,
        Err(refused) => refused.reply,
    }
}

/// Makes `ticks` ticks, piece by piece. The switches of each piece are forgotten, so they take the
/// room of one piece, however many ticks are made.
fn advance(domain: &mut Repeating, ticks: u64) -> Reply
    requires early { domain.old.time + ticks ≤ clock_end }
    ensures reply { result ≡ reply_to domain.old (Call.Advance ticks) }
    ensures domain { domain.new ≡ without_switches (ticked_by ticks domain.old) }
    ensures time { domain.new.time ≡ domain.old.time + ticks }
{
    domain.forget_switches();
    let mut left = ticks;
    'pieces: while left > 0 {
        left -= domain.advance(left);
        domain.forget_switches();
    }
    Reply::Done { ticks }
}

/// Makes a call. The domain is that after the call, but its switches may be forgotten: no reply
/// depends on them.
pub(crate) fn make(domain: &mut Repeating, call: Call) -> Reply
    requires call { IsCall call }
    requires early { domain.old.time + max_advance ≤ clock_end }
    ensures reply { result ≡ reply_to domain.old call }
    ensures domain { without_switches domain.new
        ≡ without_switches (after_call domain.old call) }
    ensures time { domain.new.time ≤ domain.old.time + max_advance }
{
    match call {
        Call::Admit {
            number,
            name,
            params,
            delay,
            script,
        } => admit(domain, number, name, params, delay, script),
        Call::Advance { ticks } => advance(domain, ticks),
        Call::Regrade {
            number,
            params,
            word,
        } => domain.regrade(number, params, word),
        Call::Wake { number } => domain.wake(number),
        Call::Leave { number } => domain.leave(number),
        Call::Limit { limit, word } => domain.set_limit(limit, word),
        Call::Depart { number } => domain.depart(number),
        // As an admission without a delay.
        Call::Arrive {
            number,
            name,
            params,
            script,
        } => admit(domain, number, name, params, 0, script),
    }
}
