ghost use Rattle.std.specs.Prelude.{◌≡◌};
ghost use Rattle.std.specs.Fmt.{WritesOnOk};
ghost use Rattle.dl_session.specs.Lines.{scenario_text};
ghost use Rattle.dl_session.specs.Status.{exit_status};

use calls_trace::{ReplayFault, TraceFault};
use json_order::JsonFault;
use one_line::write_shown;
use rtapp_scenario::ScenarioFault;
use session::{AdmitFault, EndFault, Refusal};
use std::error::Error;
use std::fmt;

/// Why a run or a replay ended without its text. Where it is not [`SessionFault::Write`], nothing
/// was written. It prints on one line what went wrong, as `json 11 at 5` or `write failed after
/// 100`.
#[derive(Debug, Drop)]
pub enum SessionFault {
    /// 10 to 14: the input is no JSON as it is read here (RFC 8259, narrower).
    Json(JsonFault),
    /// 20 to 27: the JSON value is no scenario of the rt-app profile.
    Scenario(ScenarioFault),
    /// 30: the first line, from 1, at which the input stops being a front of whole lines of a calls
    /// text.
    Calls(u64),
    /// The reader failed.
    Read,
    /// The writer failed.
    Write {
        /// How many bytes of the text the writer took before its fault.
        written: u64,
    },
    /// The thread of a client was not started.
    Start,
    /// 40: the history of a domain had no room for the advance at the end.
    Full,
    /// A growth was refused.
    Memory,
}

impl Error for SessionFault {}

impl From<AdmitFault> for SessionFault {
    ghost use Rattle.std.specs.Prelude.{◌≡◌};
    ghost use Rattle.dl_session.specs.Upward.{of_admission};

    ghost from_gives = { λ found fault. fault ≡ of_admission found };

    fn from(found: AdmitFault) -> SessionFault {
        match found {
            AdmitFault::Start => SessionFault::Start,
            AdmitFault::Memory => SessionFault::Memory,
        }
    }
}

impl From<ReplayFault> for SessionFault {
    ghost use Rattle.std.specs.Prelude.{◌≡◌};
    ghost use Rattle.dl_session.specs.Upward.{of_replay};

    ghost from_gives = { λ found fault. fault ≡ of_replay found };

    fn from(found: ReplayFault) -> SessionFault {
        match found {
            ReplayFault::Calls(line) => SessionFault::Calls(line),
            ReplayFault::Read => SessionFault::Read,
            ReplayFault::Write { written } => SessionFault::Write { written },
            ReplayFault::Memory => SessionFault::Memory,
        }
    }
}

impl From<EndFault> for SessionFault {
    ghost use Rattle.std.specs.Prelude.{◌≡◌};
    ghost use Rattle.dl_session.specs.Upward.{of_end};

    ghost from_gives = { λ found fault. fault ≡ of_end found };

    fn from(found: EndFault) -> SessionFault {
        match found {
            EndFault::Full => SessionFault::Full,
            EndFault::Memory => SessionFault::Memory,
        }
    }
}

impl From<TraceFault> for SessionFault {
    ghost use Rattle.std.specs.Prelude.{◌≡◌};
    ghost use Rattle.dl_session.specs.Upward.{from_trace};

    ghost from_gives = { λ found fault. fault ≡ from_trace found };

    fn from(found: TraceFault) -> SessionFault {
        match found {
            TraceFault::Write { written } => SessionFault::Write { written },
            TraceFault::Memory => SessionFault::Memory,
        }
    }
}

impl SessionFault {
    /// The exit status of the program: 1 for bad input; 3 where reading or writing failed, a thread
    /// was not started or a history was full; 4 for want of memory.
    pub fn status(&self) -> u8
        ensures { result ≡ exit_status self.now }
    {
        match self {
            SessionFault::Json(_) | SessionFault::Scenario(_) | SessionFault::Calls(_) => 1,
            SessionFault::Read
            | SessionFault::Write { .. }
            | SessionFault::Start
            | SessionFault::Full => 3,
            SessionFault::Memory => 4,
        }
    }
}

/// Writes the fault of a scenario, with its key on one line.
fn write_scenario<W: fmt::Write>(f: &mut fmt::Formatter<W>, fault: &ScenarioFault) -> fmt::Result
    ensures { WritesOnOk W.write_str_gives f.old result (scenario_text fault.now) f.new }
{
    let number = fault.number();
    match fault {
        ScenarioFault::Unsupported(key) | ScenarioFault::Value(key) => {
            write!(f, "scenario {number} key ")?;
            write_shown(f, key)
        }
        _ => write!(f, "scenario {number}"),
    }
}

impl fmt::Display for SessionFault {
    ghost use Rattle.std.specs.Prelude.{Some};
    ghost use Rattle.dl_session.specs.Lines.{fault_text};

    ghost output = { λ fault. Some (fault_text fault) };

    fn fmt<W: fmt::Write>(&self, f: &mut fmt::Formatter<W>) -> fmt::Result {
        match self {
            SessionFault::Json(fault) => write!(f, "{fault}"),
            SessionFault::Scenario(fault) => write_scenario(f, fault),
            SessionFault::Calls(line) => write!(f, "calls 30 line {line}"),
            SessionFault::Read => f.write_str("read failed"),
            SessionFault::Write { written } => write!(f, "write failed after {written}"),
            SessionFault::Start => f.write_str("no thread"),
            SessionFault::Full => f.write_str("book full"),
            SessionFault::Memory => f.write_str("out of memory"),
        }
    }
}

/// The line by which the program tells that a task was refused: `dlsim: task 4 EBUSY 16 seen
/// 1572864`, without an LF.
#[derive(Clone, Copy)]
pub struct RefusedLine {
    /// The task's number, from 1.
    pub number: u32,
    /// Why it was refused.
    pub refusal: Refusal,
}

impl fmt::Display for RefusedLine {
    ghost use Rattle.std.specs.Prelude.{Some};
    ghost use Rattle.dl_session.specs.Lines.{refused_line};

    ghost output = { λ line. Some (refused_line line) };

    fn fmt<W: fmt::Write>(&self, f: &mut fmt::Formatter<W>) -> fmt::Result {
        let number = self.number;
        let refusal = self.refusal;
        write!(f, "dlsim: task {number} {refusal}")
    }
}
