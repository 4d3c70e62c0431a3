//! The lines of the program, put after what stands before.

ghost use Rattle.std.specs.Prelude.{◌++◌, decimal};
ghost use Rattle.attr_check.specs.RefusalName.{refusal_name};
ghost use Rattle.draft.specs.Draft.{Adds};
ghost use Rattle.one_line.specs.Shown.{shown};
ghost use Rattle.run_options.specs.Words.{words_text};
ghost use Rattle.session.specs.RefusalText.{refusal_text};
ghost use Rattle.dl_session.specs.Ending.{refused_task_line};
ghost use Rattle.dl_session.specs.Lines.{fault_text, json_text, refused_line, scenario_text};

use crate::fault::{RefusedLine, SessionFault};
use attr_check::AttrRefusal;
use draft::Draft;
use json_order::JsonFault;
use one_line::put_shown;
use rtapp_scenario::ScenarioFault;
use run_options::WordsFault;
use session::Refusal;

/// Words and a number.
pub(crate) fn put_counted(out: &mut Draft, words: &[u8], n: u64)
    ensures { Adds out.old out.new (words.now ++ decimal n) }
{
    out.put(words);
    out.put_decimal(n);
}

/// Words, and after them a name on one line.
pub(crate) fn put_named(out: &mut Draft, words: &[u8], name: &str)
    ensures { Adds out.old out.new (words.now ++ shown name.now) }
{
    out.put(words);
    put_shown(out, name);
}

fn put_attr_refusal(out: &mut Draft, refusal: AttrRefusal)
    ensures { Adds out.old out.new (refusal_name refusal) }
{
    match refusal {
        AttrRefusal::NotDeadline => out.put(b"NotDeadline"),
        AttrRefusal::UnknownFlag => out.put(b"UnknownFlag"),
        AttrRefusal::TopBit => out.put(b"TopBit"),
        AttrRefusal::Small => out.put(b"Small"),
        AttrRefusal::Order => out.put(b"Order"),
        AttrRefusal::Grain => out.put(b"Grain"),
        AttrRefusal::Long => out.put(b"Long"),
    }
}

fn put_refusal(out: &mut Draft, refusal: Refusal)
    ensures { Adds out.old out.new (refusal_text refusal) }
{
    match refusal {
        Refusal::Einval(kind) => {
            out.put(b"EINVAL 22 ");
            put_attr_refusal(out, kind);
        }
        Refusal::Eperm => out.put(b"EPERM 1"),
        Refusal::Full => out.put(b"Full 40"),
        Refusal::Twice => out.put(b"Twice 41"),
        Refusal::Enomem => out.put(b"ENOMEM 12"),
        Refusal::Busy { seen } => put_counted(out, b"EBUSY 16 seen ", seen),
        Refusal::Esrch => out.put(b"ESRCH 3"),
        Refusal::Stale { .. } => out.put(b"Stale 43"),
        Refusal::SameDomain => out.put(b"SameDomain 44"),
    }
}

/// The line of a refused task, without the LF.
fn put_refused_line(out: &mut Draft, line: RefusedLine)
    ensures { Adds out.old out.new (refused_line line) }
{
    put_counted(out, b"dlsim: task ", u64::from(line.number));
    out.put(b" ");
    put_refusal(out, line.refusal);
}

/// The line of a refused task.
pub(crate) fn put_refused_task(out: &mut Draft, number: u32, refusal: Refusal)
    ensures { Adds out.old out.new (refused_task_line (number, refusal)) }
{
    put_refused_line(out, RefusedLine { number, refusal });
    out.put(b"\n");
}

fn put_json(out: &mut Draft, fault: &JsonFault)
    ensures { Adds out.old out.new (json_text fault.now) }
{
    put_counted(out, b"json ", u64::from(fault.kind.number()));
    put_counted(out, b" at ", fault.at as u64);
}

fn put_scenario(out: &mut Draft, fault: &ScenarioFault)
    ensures { Adds out.old out.new (scenario_text fault.now) }
{
    put_counted(out, b"scenario ", u64::from(fault.number()));
    match fault {
        ScenarioFault::Unsupported(key) | ScenarioFault::Value(key) => {
            put_named(out, b" key ", key);
        }
        _ => {}
    }
}

/// The text of a fault, without the program's name and the LF.
pub(crate) fn put_fault(out: &mut Draft, fault: &SessionFault)
    ensures { Adds out.old out.new (fault_text fault.now) }
{
    match fault {
        SessionFault::Json(fault) => put_json(out, fault),
        SessionFault::Scenario(fault) => put_scenario(out, fault),
        SessionFault::Calls(line) => put_counted(out, b"calls 30 line ", *line),
        SessionFault::Read => out.put(b"read failed"),
        SessionFault::Write { written } => put_counted(out, b"write failed after ", *written),
        SessionFault::Start => out.put(b"no thread"),
        SessionFault::Full => out.put(b"book full"),
        SessionFault::Memory => out.put(b"out of memory"),
    }
}

/// What is wrong with the words of a command line.
pub(crate) fn put_words(out: &mut Draft, fault: WordsFault)
    ensures { Adds out.old out.new (words_text fault) }
{
    match fault {
        WordsFault::Window => out.put(b"empty window"),
        WordsFault::NoChart => out.put(b"no chart to cut"),
        WordsFault::List => out.put(b"bad list"),
        WordsFault::Limit => out.put(b"limit out of range"),
        WordsFault::Memory => out.put(b"out of memory"),
    }
}
