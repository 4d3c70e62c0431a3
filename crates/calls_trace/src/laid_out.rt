//! The script of a task that is admitted, laid out before: its run reads it from then on.

ghost use Rattle.std.specs.Prelude.{◌≡◌, ◌<◌, false, IsTrue};
ghost use Rattle.domain_run.specs.Calls.{admit_reply, is_refusal};
ghost use Rattle.limits.specs.Limits.{task_number_end};

use attr_check::Params;
use domain_run::{Reply, Script, State};

/// Whether a task would be admitted. Its script is laid out then. A task that is refused never
/// runs, so nothing is done for it.
pub(crate) fn lay_out_if_admitted(
    state: &State,
    number: u32,
    params: &Params,
    script: &mut Script,
) -> bool
    requires { number < task_number_end }
    ensures script { script.new ≡ script.old }
    ensures refused { result ≡ false
        → IsTrue (is_refusal (admit_reply state.now number params.now)) }
{
    match state.admit_reply(number, params) {
        Reply::Admitted => {
            script.lay_out();
            true
        }
        _ => false,
    }
}
